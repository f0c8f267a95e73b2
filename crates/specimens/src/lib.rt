// Worked examples of what the book is defined to answer, proved as one table.
#![tactic(auto)]

ghost use Rattle.std.specs.Prelude.{◌≡◌};
ghost use Rattle.specimens.specs.Specimens.{Specimens};

// How many rows the table has. The contract is that each of them holds of the definitions that the book's contracts cite.
pub fn specimens() -> u32
    ensures count { result ≡ 7 }
    ensures hold { Specimens }
{
    rows()
}

fn rows() -> u32
    ensures { result ≡ 7 }
{
    7
}

// What holds of every register, said of the meaning alone.
ghost use Rattle.std.specs.Prelude.{◌≡◌, ◌≤◌, true, length, take};
ghost use Rattle.registers.specs.Asking.{holding_all, numbers, fitting, answered, Law, same_numbers};

use crate::meaning::Register;
use crate::pairs::Pair;

// Asks for the number of each pair, one after another, and writes the answers to the beginning of `given`.
// Asks for no more than `given` has places for, and says for how many it asked.
pub fn number_all<R: Register>(register: &mut R, asked: &[Pair], given: &mut [Option<u32>]) -> usize
    ensures count { result ≡ length (fitting asked.now given.old) }
    ensures bound { result ≤ length given.new }
    ensures front { take result given.new ≡ numbers (R.room register.old) (R.pairs register.old) (fitting asked.now given.old) }
    ensures answers { given.new ≡ answered (R.room register.old) (R.pairs register.old) asked.now given.old }
    ensures after { R.pairs register.new ≡ holding_all (R.room register.old) (R.pairs register.old) (fitting asked.now given.old) }
    ensures same { R.room register.new ≡ R.room register.old }
    ensures law { Law (R.room register.old) (fitting asked.now given.old) (numbers (R.room register.old) (R.pairs register.old) (fitting asked.now given.old)) (R.pairs register.new) }
{
    let fitting = fitting(asked, given);
    // By place, since nothing is known of a table after an adapter of `iter_mut` has run over it.
    for (place, pair) in fitting.iter().enumerate() {
        given[place] = register.number(*pair);
    }
    fitting.len()
}

// The pairs that there are places for.
fn fitting<'a>(asked: &'a [Pair], given: &[Option<u32>]) -> &'a [Pair]
    ensures { result.now ≡ fitting asked.now given.now }
{
    &asked[..asked.len().min(given.len())]
}

// Asks two registers for the same pairs, as `number_all` does, and says whether they gave the same numbers.
// With the same capacity, the same pairs and tables of one length they do, however they are built. What `number_all` says of
// one register is said again of both, since a public call says in full what it leaves.
pub fn side_by_side<L: Register, R: Register>(
    left: &mut L,
    right: &mut R,
    asked: &[Pair],
    left_given: &mut [Option<u32>],
    right_given: &mut [Option<u32>],
) -> bool
    ensures agree { result ≡ same_numbers (numbers (L.Register.room left.old) (L.Register.pairs left.old) (fitting asked.now left_given.old)) (numbers (R.Register.room right.old) (R.Register.pairs right.old) (fitting asked.now right_given.old)) }
    ensures law { L.Register.room left.old ≡ R.Register.room right.old → L.Register.pairs left.old ≡ R.Register.pairs right.old → length left_given.old ≡ length right_given.old → result ≡ true }
    ensures left_answers { left_given.new ≡ answered (L.Register.room left.old) (L.Register.pairs left.old) asked.now left_given.old }
    ensures left_after { L.Register.pairs left.new ≡ holding_all (L.Register.room left.old) (L.Register.pairs left.old) (fitting asked.now left_given.old) }
    ensures left_same { L.Register.room left.new ≡ L.Register.room left.old }
    ensures right_answers { right_given.new ≡ answered (R.Register.room right.old) (R.Register.pairs right.old) asked.now right_given.old }
    ensures right_after { R.Register.pairs right.new ≡ holding_all (R.Register.room right.old) (R.Register.pairs right.old) (fitting asked.now right_given.old) }
    ensures right_same { R.Register.room right.new ≡ R.Register.room right.old }
{
    let n = number_all(left, asked, left_given);
    let m = number_all(right, asked, right_given);
    same_answers(&left_given[..n], &right_given[..m])
}

fn same_answers(left: &[Option<u32>], right: &[Option<u32>]) -> bool
    ensures { result ≡ same_numbers left.now right.now }
{
    left == right
}

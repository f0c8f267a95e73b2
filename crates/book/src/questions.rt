// Questions to a book, and the listing of a closed one.
ghost use Rattle.std.specs.Prelude.{◌≡◌, ◌≤◌, length};
ghost use Rattle.book.specs.Linking.{repeats_of, listed_answer, listed_table};
ghost use Rattle.book.specs.Questions.{group_answer, start_answer, word_count, top_count, word_group, word_start, repeat_count, word_listed, word_table, Tells};
ghost use Rattle.book.specs.Books.{held};

use crate::books::{Book, Closed, Stage};
use crate::linking::Listed;
use names::Refusal;
use registers::Register;

// How many there are, which a book has at most 4,096 of.
fn count<T>(items: &[T]) -> u32
    requires { length items.now ≤ 4096 }
    ensures { result ≡ length items.now }
{
    items.len() as u32
}

// In either stage.
impl<R: Register, S: Stage> Book<R, S> {
    // How many words it has taken.
    #[tactic(auto, using(crate::proofs::Asking::tells_words))]
    pub fn words(&self) -> u32
        ensures value { result ≡ length (held self.now).entries }
        ensures tells { Tells (held self.now) result word_count }
    {
        count(self.entries.as_slice())
    }

    // How many top passages these make.
    #[tactic(auto, using(crate::proofs::Asking::tells_tops))]
    pub fn tops(&self) -> u32
        ensures value { result ≡ length (held self.now).tops }
        ensures tells { Tells (held self.now) result top_count }
    {
        count(self.tops.as_slice())
    }

    // The group number of the passage that ends at the position.
    #[tactic(auto, using(crate::proofs::Asking::tells_group))]
    pub fn group(&self, position: u32) -> Result<u32, Refusal>
        ensures value { result ≡ group_answer (held self.now) position }
        ensures tells { Tells (held self.now) result (word_group position) }
    {
        Ok(self.entries.at(position)?.group)
    }

    // The position of that passage's first leaf.
    #[tactic(auto, using(crate::proofs::Asking::tells_start))]
    pub fn start(&self, position: u32) -> Result<u32, Refusal>
        ensures value { result ≡ start_answer (held self.now) position }
        ensures tells { Tells (held self.now) result (word_start position) }
    {
        Ok(self.entries.at(position)?.start)
    }
}

impl<R: Register> Book<R, Closed> {
    // How many repeats there are.
    #[tactic(auto, using(crate::proofs::Asking::tells_repeats, crate::proofs::Asking::count_repeats))]
    pub fn repeats(&self) -> u32
        ensures value { result ≡ length (repeats_of (held self.now).entries) }
        ensures tells { Tells (held self.now) result repeat_count }
    {
        count(self.index.firsts.as_slice())
    }

    // Lists repeat k: its group number, its size and the count of its ends, all of which the table then begins with, rising.
    #[tactic(auto, using(crate::proofs::Asking::tells_listed, crate::proofs::Asking::tells_table))]
    pub fn list(&self, k: u32, table: &mut [u32]) -> Result<Listed, Refusal>
        ensures answer { result ≡ listed_answer (held self.now).entries k (length table.old) }
        ensures table { table.new ≡ listed_table (held self.now).entries k table.old }
        ensures lists { Tells (held self.now) result (word_listed k (length table.old)) }
        ensures fills { Tells (held self.now) table.new (word_table k table.old) }
    {
        self.index.list(&self.entries, k, table)
    }
}

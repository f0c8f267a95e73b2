// Taking words into a book.
ghost use Rattle.std.specs.Prelude.{◌≡◌, ◌+◌, ◌-◌, ◌<◌, ◌≤◌, length, vec_len, nat_le};
ghost use Rattle.book.specs.Words.{word};
ghost use Rattle.book.specs.States.{needs, start_over, refused, allowed, taken, grown, take_answer, after_take};
ghost use Rattle.book.specs.Taken.{Takes};
ghost use Rattle.book.specs.Books.{held};

use crate::books::{Book, Taking};
use crate::chains::number_word;
use crate::entries::Entry;
use labels::Label;
use names::Refusal;
use registers::Register;

// How many places a word asks for, as many as it has items.
fn places_for(spelled: u16, rank: u8) -> u32
    ensures { result ≡ 2 + spelled + rank }
{
    2 + u32::from(spelled) + u32::from(rank)
}

// Whether the register has a place for each item of a word. The longest of the kind comes first, since it spares asking the label's length.
// Label and rank come apart, as `take` is given them: the label is lent, and a `Node` owns its label.
fn has_places<R: Register, L: Label>(register: &R, label: &L, rank: u8) -> bool
    ensures { result ≡ nat_le (needs (word rank (L.spelling label.now))) (R.room register.now - length (R.pairs register.now)) }
{
    let free = register.capacity() - register.count();
    places_for(L::longest_spelling(), rank) <= free || places_for(label.spelled_len(), rank) <= free
}

// Where a passage over these children starts, if its word stands at the position.
fn start_of(children: &[Entry], position: u32) -> u32
    ensures { result ≡ start_over children.now position }
{
    match children {
        [] => position,
        [first, ..] => first.start,
    }
}

impl<R: Register> Book<R, Taking> {
    // Takes a word: its group number and its passage's start.
    pub fn take<L: Label>(&mut self, label: &L, rank: u8) -> Result<(u32, u32), Refusal>
        ensures answer { result ≡ take_answer (held self.old) (word rank (L.spelling label.now)) }
        ensures after { held self.new ≡ after_take (held self.old) (word rank (L.spelling label.now)) }
        ensures takes { Takes (held self.old) (held self.new) (word rank (L.spelling label.now)) result }
    {
        self.check_word(label, rank)?;
        let entry = self.grow(label, rank);
        Ok((entry.group, entry.start))
    }

    // Whether a word may be taken, or the first reason to refuse it. Label and rank come apart, as `take` is given them.
    #[tactic(auto, unfolding(crate::specs::States::refusal))]
    fn check_word<L: Label>(&self, label: &L, rank: u8) -> Result<(), Refusal>
        ensures { result ≡ allowed (refused (held self.now) (word rank (L.spelling label.now))) }
    {
        if usize::from(rank) > self.tops.len() {
            return Err(Refusal::RankAboveTops);
        }
        if self.entries.is_full() {
            return Err(Refusal::BookFull);
        }
        if !has_places(&self.register, label, rank) {
            return Err(Refusal::RegisterFull);
        }
        Ok(())
    }

    // Adds a word that is not refused. Label and rank come apart, as `take` is given them.
    fn grow<L: Label>(&mut self, label: &L, rank: u8) -> Entry
        requires ranked { rank ≤ vec_len self.old.tops }
        requires few { length self.old.entries < 4096 }
        requires free { length (R.pairs self.old.register) + needs (word rank (L.spelling label.now)) ≤ R.room self.old.register }
        ensures answer { result ≡ taken (held self.old) (word rank (L.spelling label.now)) }
        ensures after { held self.new ≡ grown (held self.old) (word rank (L.spelling label.now)) }
    {
        let position = self.words();
        let first = self.tops.len() - usize::from(rank);
        let children = &self.tops.as_slice()[first..];
        let start = start_of(children, position);
        let group = number_word(&mut self.register, label, rank, children);
        let entry = Entry { group, start };
        self.tops.truncate(first);
        self.tops.push_reserved(entry);
        self.entries.push(entry);
        entry
    }
}

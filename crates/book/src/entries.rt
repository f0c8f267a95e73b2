// Words as a book holds them.
ghost use Rattle.std.specs.Prelude.{◌≡◌, ◌≤◌, ◌<◌, [], ◌∷◌, ◌++◌, length, IfOk, nat_le, slice_index_or};
ghost use Rattle.book.specs.Entries.{entry};
ghost use Rattle.book.specs.Kept.{Kept};
ghost use Rattle.book.specs.Questions.{at_position};

use names::Refusal;
use std::alloc::{AllocError, Global};
use std::marker::Model;

// The most words that a book holds.
pub const MOST_WORDS: usize = 4096;

// A word: the group number of the passage that ends there, and the position of its first leaf.
#[derive(Clone, Copy)]
pub struct Entry {
    pub group: u32,
    pub start: u32,
}

// The words in their order. The memory for all that a book holds is reserved, so that no later call can fail for want of it.
#[derive(Drop)]
pub struct Entries {
    pub(crate) words: Vec<Entry>,
}

impl Model for Entries {
    ghost use Rattle.std.specs.Prelude.{List};
    ghost use Rattle.book.specs.declared.entries.Entry.{Entry};

    ghost Value = { List Entry };

    ghost use Rattle.std.specs.Prelude.{◌≤◌, vec_capacity};
    ghost use Rattle.book.specs.Kept.{Kept};

    ghost view = { λ a. a.words.items };

    ghost invariant = { λ a. Kept a.words.items × (4096 ≤ vec_capacity a.words) };
}

impl Entries {
    pub(crate) fn new(heap: Global) -> Result<Entries, AllocError>
        ensures { IfOk result (λ es. es ≡ []) }
    {
        Ok(Entries {
            words: Vec::with_capacity(heap, MOST_WORDS)?,
        })
    }

    pub(crate) fn as_slice(&self) -> &[Entry]
        ensures value { result.now ≡ self.now }
        ensures kept { Kept self.now }
    {
        self.words.as_slice()
    }

    // Whether there is no place left.
    pub(crate) fn is_full(&self) -> bool
        ensures { result ≡ nat_le 4096 (length self.now) }
    {
        self.words.len() >= MOST_WORDS
    }

    // The entry of a position, if that is below the words.
    pub(crate) fn at(&self, position: u32) -> Result<Entry, Refusal>
        ensures { result ≡ at_position (length self.now) position (slice_index_or self.now position (entry 0 0)) }
    {
        self.words
            .get(position as usize)
            .copied()
            .ok_or(Refusal::NoSuchPosition)
    }

    // Adds a word, where the book has a place for it.
    pub(crate) fn push(&mut self, entry: Entry)
        requires few { length self.old < 4096 }
        requires group { entry.group ≤ 32768 }
        requires start { entry.start ≤ length self.old }
        ensures { self.new ≡ self.old ++ entry ∷ [] }
    {
        self.words.push_reserved(entry);
    }
}

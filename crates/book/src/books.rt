// A book in its two stages: one that takes words, and one that is closed.
ghost use Rattle.std.specs.Prelude.{◌≤◌, List, length, vec_len, vec_capacity};
ghost use Rattle.std.proofs.Props.{props};
ghost use Rattle.book.specs.declared.entries.Entry.{Entry};
ghost use Rattle.book.specs.declared.linking.Index.{Index};
ghost use Rattle.book.specs.Kept.{LowTops};
ghost use Rattle.book.specs.Linking.{Indexed};

use crate::entries::{Entries, Entry};
use crate::linking::Index;
use registers::Register;

// What a book is doing: taking words, or closed.
pub trait Stage: Drop {
    // What the memory for links and repeats has to do with the entries of the words.
    ghost fits: { Index → List Entry → Type 0 };

    ghost is_fact: { (index : Index) (es : List Entry) → IsProp (fits index es) };
}

// A book takes words: its memory waits for the closing.
#[derive(Drop)]
pub struct Taking;

impl Stage for Taking {
    ghost fits = { λ _ _. Unit {0} };

    ghost is_fact = { λ _ _. Prim.hlevel props };
}

// A book is closed: its index links each word to the next of its group, and has the first end of each repeat.
#[derive(Drop)]
pub struct Closed;

impl Stage for Closed {
    ghost fits = { λ index es. Indexed es index.later.items index.firsts.items };

    ghost is_fact = { λ _ _. Prim.hlevel props };
}

// A book of words over a register. Its memory is reserved when it is made, so that no later call on it can fail for want of memory.
pub struct Book<R: Register, S: Stage> {
    pub(crate) register: R,
    pub(crate) entries: Entries,
    pub(crate) tops: Vec<Entry>,
    pub(crate) index: Index,
    pub(crate) stage: S,
    ghost few: { length entries ≤ 4096 },
    ghost fewer: { vec_len tops ≤ length entries },
    ghost stacked: { 4096 ≤ vec_capacity tops },
    ghost within: { LowTops tops.items (length entries) },
    ghost staged: { S.fits index entries } by { S.is_fact index entries },
}

// A book that takes words.
pub type TakingBook<R> = Book<R, Taking>;

// A book that is closed.
pub type ClosedBook<R> = Book<R, Closed>;

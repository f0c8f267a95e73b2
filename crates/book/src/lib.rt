// A book of words over a register: takes words and texts, answers questions, lists what repeats.
// Words, passages, group numbers, repeats and the law of arrangements are defined in specs/.
#![tactic(auto)]

mod arrangement;
mod books;
mod calls;
mod chains;
mod closing;
mod ends;
mod entries;
mod linking;
mod questions;
mod reading;
mod readings;
mod taking;
mod words;

pub use arrangement::perform_all;
pub use books::{Book, Closed, ClosedBook, Stage, Taking, TakingBook};
pub use calls::{Answer, Call};
pub use entries::MOST_WORDS;
// The kinds of label, which stand in a crate of their own.
pub use labels::{
    Bare, FrameLabel, Label, RestLabel, SoundingNote, SyllableLabel, WrittenNote, kind_of,
    same_label,
};
pub use linking::Listed;
pub use readings::Reading;
pub use words::{Either, Node, Takable};

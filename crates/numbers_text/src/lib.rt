// What the program `numbers` reads and tells: pairs as text, and a word for each.
#![tactic(auto)]

mod reading;
mod telling;

pub use reading::read_pair;
pub use telling::{Answer, Word, count_after, word_for};

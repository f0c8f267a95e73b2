// The lowest library: note names, tokens, texts, and everything that the project refuses.
#![tactic(auto)]

mod decimals;
pub mod exports;
mod keywords;
mod limits;
mod notes;
mod pen;
mod pitches;
mod refusals;
mod spellings;
mod texts;
mod tokens;
mod writing;

pub use keywords::{Keyword, NoSuchKeyword};
pub use limits::{is_length, is_sung};
pub use pitches::{Alteration, Naming, Pitch, Step};
pub use refusals::{Fault, Layer, Refusal};
pub use spellings::{read_name, write_name};
pub use texts::{Cut, Placed, Reader, next_cut};
pub use tokens::{Note, Token, read_token};
pub use writing::{token_length, write_token};

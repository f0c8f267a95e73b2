// Registers of pairs: each different pair has a number, its place in the order of arrival, from 1.
#![tactic(auto)]

mod by_buckets;
mod by_rows;
mod held;
mod law;
mod meaning;
mod mixing;
mod pairs;
mod slots;

pub use by_buckets::Buckets;
pub use by_rows::Rows;
pub use law::{number_all, side_by_side};
pub use meaning::{MOST_PAIRS, Register};
pub use pairs::Pair;
pub use slots::Slot;

// A place in the table of a bucket register.
use crate::pairs::Pair;

// `next` is the number of the next pair in the chain, or 0 at its end: no Option, so that a slot is three numbers of 32 bits.
#[derive(Clone, Copy, Default)]
pub struct Slot {
    pub pair: Pair,
    pub next: u32,
}

// A pair of numbers, as a register holds it.

#[derive(Clone, Copy, PartialEq, Eq, Default, Debug)]
pub struct Pair {
    pub first: u32,
    pub second: u32,
}

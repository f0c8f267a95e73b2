// Registers at their limits, and registers moved by value into a generic struct.
#![tactic(auto)]

#[cfg(test)]
mod limits;
#[cfg(test)]
mod owned;
pub mod shelf;

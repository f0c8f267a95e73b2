// What a register is, whoever built it: a capacity that never changes, and a list of different pairs.
ghost use Rattle.std.specs.Prelude.{◌≡◌, ℕ, List, length};
ghost use Rattle.registers.specs.declared.pairs.Pair.{Pair};
ghost use Rattle.registers.specs.Pairs.{Sound, number_in, pair_at};
ghost use Rattle.registers.specs.Holding.{holding};

use crate::pairs::Pair;

// The most pairs that any register holds.
pub const MOST_PAIRS: usize = 32_768;

pub trait Register {
    // The meaning: the capacity, the pairs in the order of arrival,
    // and what holds of them at any time: no two are the same, and the limits are kept.
    ghost room: { Self → ℕ };

    ghost pairs: { Self → List Pair };

    ghost sound: { (r : Self) → Sound (room r) (pairs r) };

    // Looking: nothing changes.

    // How many pairs the register can hold.
    fn capacity(&self) -> u32
        ensures { result ≡ room self.now };

    // How many pairs it holds.
    fn count(&self) -> u32
        ensures { result ≡ length (pairs self.now) };

    // The pair that has the number, or none outside 1 to the count.
    fn pair_at(&self, number: u32) -> Option<Pair>
        ensures { result ≡ pair_at (pairs self.now) number };

    // The number of the pair, or none where it is not held.
    fn number_if_held(&self, pair: Pair) -> Option<u32>
        ensures { result ≡ number_in (pairs self.now) pair };

    // Appending.

    // The number of the pair, which is appended first where it is not held and there is a place left.
    fn number(&mut self, pair: Pair) -> Option<u32>
        ensures answer { result ≡ number_in (holding (room self.old) (pairs self.old) pair) pair }
        ensures after { pairs self.new ≡ holding (room self.old) (pairs self.old) pair }
        ensures same { room self.new ≡ room self.old };
}

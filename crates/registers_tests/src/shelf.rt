// A generic struct that owns a register of any kind by value, as whoever builds on registers may have it.
ghost use Rattle.std.specs.Prelude.{◌≡◌};
ghost use Rattle.registers.specs.Pairs.{number_in};
ghost use Rattle.registers.specs.Holding.{holding};

use registers::{Pair, Register};

#[derive(Drop)]
pub struct Shelf<R: Register> {
    pub register: R,
    pub asked: u64,
}

impl<R: Register> Shelf<R> {
    // The number of the pair in the shelf's register.
    pub fn ask(&mut self, pair: Pair) -> Option<u32>
        ensures answer { result ≡ number_in (holding (R.room self.old.register) (R.pairs self.old.register) pair) pair }
        ensures after { R.pairs self.new.register ≡ holding (R.room self.old.register) (R.pairs self.old.register) pair }
        ensures same { R.room self.new.register ≡ R.room self.old.register }
    {
        self.asked = self.asked.wrapping_add(1);
        self.register.number(pair)
    }

    pub fn into_register(self) -> R
        ensures { result ≡ self.register }
    {
        let Shelf { register, asked: _ } = self;
        register
    }
}

// A register that looks through its pairs in the order of arrival.
ghost use Rattle.registers.specs.Pairs.{Apart};
ghost use Rattle.registers.specs.Places.{places_of};

use crate::held::Held;
use crate::meaning::Register;
use crate::pairs::Pair;

// That no two pairs are the same stands here and not in `Held`: a fact of a struct that owns memory cannot speak of what
// the type of its places means.
#[derive(Drop)]
pub struct Rows {
    held: Held<Pair>,
    ghost apart: { Apart (places_of held) },
}

impl Rows {
    ghost use Rattle.std.specs.Prelude.{◌≡◌, ◌<◌, [], IfSome, vec_len};
    ghost use Rattle.registers.specs.Pairs.{place_in};
    ghost use Rattle.registers.specs.Places.{within_limit};
    ghost use Rattle.registers.specs.Rowed.{pairs_of, room_of};

    // An empty register over the table, one place for each pair.
    pub fn over(table: Vec<Pair>) -> Rows
        ensures pairs { pairs_of result ≡ [] }
        ensures room { room_of result ≡ within_limit (vec_len table) }
    {
        Rows {
            held: Held::over(table),
        }
    }

    // Gives the table back, the pairs in its first places.
    pub fn into_table(self) -> Vec<Pair>
        ensures { result ≡ self.held.table }
    {
        let Rows { held } = self;
        held.into_table()
    }

    // The place of the pair, from 0. It stays a loop that stops at the first match and yields its place: that form is wanted (docs/DECISIONS.md).
    fn place_of(&self, pair: Pair) -> Option<usize>
        ensures value { result ≡ place_in (pairs_of self.now) pair }
        ensures few { IfSome result (λ i. i < 32768) }
    {
        let pairs = self.held.places();
        let mut i = 0;
        loop {
            if i >= pairs.len() {
                break None;
            }
            if pairs[i] == pair {
                break Some(i);
            }
            i += 1;
        }
    }
}

impl Register for Rows {
    ghost use Rattle.registers.specs.Rowed.{pairs_of, room_of, sound_of};

    ghost room = { room_of };

    ghost pairs = { pairs_of };

    ghost sound = { sound_of };

    fn capacity(&self) -> u32 {
        self.held.limit()
    }

    fn count(&self) -> u32 {
        self.held.count()
    }

    fn pair_at(&self, number: u32) -> Option<Pair> {
        self.held.place(number)
    }

    fn number_if_held(&self, pair: Pair) -> Option<u32> {
        let place = self.place_of(pair)?;
        Some(place as u32 + 1)
    }

    // In the bucket register as well: a few lines over what each does its own way.
    #[tactic(auto, using(crate::proofs::Listed::looked_up))]
    fn number(&mut self, pair: Pair) -> Option<u32> {
        if let Some(number) = self.number_if_held(pair) {
            return Some(number);
        }
        if self.count() >= self.capacity() {
            return None;
        }
        Some(self.held.push(pair))
    }
}

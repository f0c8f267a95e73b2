// The places of a register that are taken, one after another from the first on.
ghost use Rattle.std.specs.Prelude.{◌≡◌, ◌≤◌, vec_len};

use crate::meaning::MOST_PAIRS;

// The first `count` places of the table are held; what stands behind them does not matter. The count stands beside the
// table, since the caller's table has a fixed length and comes back whole.
#[derive(Drop)]
pub(crate) struct Held<T> {
    table: Vec<T>,
    count: usize,
    ghost within: { count ≤ vec_len table },
    ghost most: { count ≤ 32768 },
}

impl<T: Copy> Held<T> {
    ghost use Rattle.std.specs.Prelude.{◌+◌, ◌<◌, [], ◌∷◌, ◌++◌, length};
    ghost use Rattle.registers.specs.Places.{places_of, limit_of, item_at};

    // None is held yet.
    pub(crate) fn over(table: Vec<T>) -> Held<T>
        ensures table { result.table ≡ table }
        ensures none { places_of result ≡ [] }
    {
        Held { table, count: 0 }
    }

    pub(crate) fn into_table(self) -> Vec<T>
        ensures { result ≡ self.table }
    {
        let Held { table, count: _ } = self;
        table
    }

    // How many places may be held.
    pub(crate) fn limit(&self) -> u32
        ensures { result ≡ limit_of self.now }
    {
        self.table.len().min(MOST_PAIRS) as u32
    }

    pub(crate) fn count(&self) -> u32
        ensures { result ≡ length (places_of self.now) }
    {
        self.count as u32
    }

    pub(crate) fn places(&self) -> &[T]
        ensures { result.now ≡ places_of self.now }
    {
        &self.table[..self.count]
    }

    // The place with the number, or none outside 1 to the count.
    pub(crate) fn place(&self, number: u32) -> Option<T>
        ensures { result ≡ item_at (places_of self.now) number }
    {
        let before = (number as usize).checked_sub(1)?;
        self.places().get(before).copied()
    }

    // Takes the next place, which there is, and gives its number.
    pub(crate) fn push(&mut self, place: T) -> u32
        requires { length (places_of self.old) < limit_of self.old }
        ensures number { result ≡ length (places_of self.old) + 1 }
        ensures after { places_of self.new ≡ places_of self.old ++ place ∷ [] }
        ensures same { limit_of self.new ≡ limit_of self.old }
    {
        let n = self.count;
        self.table[n] = place;
        self.count = n + 1;
        n as u32 + 1
    }
}

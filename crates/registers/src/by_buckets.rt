// A register that follows a chain of pairs from a bucket worked out from the pair.
ghost use Rattle.std.specs.Prelude.{◌≤◌, length, vec_len};
ghost use Rattle.registers.specs.Pairs.{Apart};
ghost use Rattle.registers.specs.Places.{places_of};
ghost use Rattle.registers.specs.Chains.{pairs_in, within_buckets, Headed, Linked};

use crate::held::Held;
use crate::meaning::Register;
use crate::mixing::bucket_of;
use crate::pairs::Pair;
use crate::slots::Slot;

// A new pair goes to the head of its bucket's chain, so links always lead to earlier places.
// Links are numbers of places, and 0 ends a chain: the caller gives both tables, and no call allocates.
#[derive(Drop)]
pub struct Buckets {
    held: Held<Slot>,
    heads: Vec<u32>,
    ghost within: { length (places_of held) ≤ within_buckets (vec_len held.table) (vec_len heads) },
    ghost apart: { Apart (pairs_in (places_of held)) },
    ghost headed: { Headed heads.items (vec_len heads) (pairs_in (places_of held)) },
    ghost linked: { Linked (places_of held) (vec_len heads) (pairs_in (places_of held)) },
}

impl Buckets {
    ghost use Rattle.std.specs.Prelude.{◌≡◌, ◌<◌, [], None, Some};
    ghost use Rattle.registers.specs.Pairs.{number_in};
    ghost use Rattle.registers.specs.Holding.{holding};
    ghost use Rattle.registers.specs.Chains.{chain_length, longest_of_chains};
    ghost use Rattle.registers.specs.Bucketed.{pairs_of, room_of, head_of};

    // An empty register over the table, one place for each pair, and the buckets.
    pub fn over(table: Vec<Slot>, mut heads: Vec<u32>) -> Buckets
        ensures pairs { pairs_of result ≡ [] }
        ensures room { room_of result ≡ within_buckets (vec_len table) (vec_len heads) }
    {
        heads.fill(0);
        Buckets {
            held: Held::over(table),
            heads,
        }
    }

    // Gives the tables back, the pairs in the first places of the first.
    pub fn into_tables(self) -> (Vec<Slot>, Vec<u32>)
        ensures table { result.0 ≡ self.held.table }
        ensures heads { result.1 ≡ self.heads }
    {
        let Buckets { held, heads } = self;
        (held.into_table(), heads)
    }

    // The most pairs that share one bucket.
    pub fn longest_chain(&self) -> u32
        ensures { result ≡ longest_of_chains (vec_len self.now.heads) (pairs_of self.now) }
    {
        let mut longest = 0;
        // No `fold`: it is proved only by a law and an answer of its own, which say this loop over again.
        for bucket in 0..self.heads.len() {
            longest = self.chain_length(bucket).max(longest);
        }
        longest
    }

    // How many pairs there are in the bucket, counted along its chain.
    fn chain_length(&self, bucket: usize) -> u32
        requires { bucket < vec_len self.now.heads }
        ensures { result ≡ chain_length (vec_len self.now.heads) (pairs_of self.now) bucket }
    {
        let mut length = 0;
        let mut number = self.heads[bucket];
        while let Some(slot) = self.held.place(number) {
            length += 1;
            number = slot.next;
        }
        length
    }

    // The number of the last pair in the bucket of the pair, or 0.
    fn head_of(&self, pair: Pair) -> u32
        ensures { result ≡ head_of self.now pair }
    {
        let buckets = self.heads.len();
        if buckets == 0 {
            return 0;
        }
        self.heads[bucket_of(pair, buckets)]
    }

    // The number of the pair, looked for along its chain from the head on. It walks as `chain_length` does; one walk with
    // a closure for both would be no plainer, since this one stops at a match and that one counts.
    fn number_from(&self, head: u32, pair: Pair) -> Option<u32>
        requires { head ≡ head_of self.now pair }
        ensures { result ≡ number_in (pairs_of self.now) pair }
    {
        let mut number = head;
        while let Some(slot) = self.held.place(number) {
            if slot.pair == pair {
                return Some(number);
            }
            number = slot.next;
        }
        None
    }

    // Appends a pair that is not held, where there is a place left, in front of the head of its chain, and gives its number.
    fn append(&mut self, pair: Pair, head: u32) -> u32
        requires new { number_in (pairs_of self.old) pair ≡ None }
        requires linked { head ≡ head_of self.old pair }
        requires free { length (pairs_of self.old) < room_of self.old }
        ensures answer { Some result ≡ number_in (holding (room_of self.old) (pairs_of self.old) pair) pair }
        ensures after { pairs_of self.new ≡ holding (room_of self.old) (pairs_of self.old) pair }
        ensures same { room_of self.new ≡ room_of self.old }
    {
        let bucket = bucket_of(pair, self.heads.len());
        let number = self.held.push(Slot { pair, next: head });
        self.heads[bucket] = number;
        number
    }
}

impl Register for Buckets {
    ghost use Rattle.registers.specs.Bucketed.{pairs_of, room_of, sound_of};

    ghost room = { room_of };

    ghost pairs = { pairs_of };

    ghost sound = { sound_of };

    // None without buckets.
    fn capacity(&self) -> u32 {
        if self.heads.is_empty() {
            0
        } else {
            self.held.limit()
        }
    }

    fn count(&self) -> u32 {
        self.held.count()
    }

    fn pair_at(&self, number: u32) -> Option<Pair> {
        self.held.place(number).map(|slot| slot.pair)
    }

    fn number_if_held(&self, pair: Pair) -> Option<u32> {
        self.number_from(self.head_of(pair), pair)
    }

    // In the row register as well: a few lines over what each does its own way.
    #[tactic(auto, using(crate::proofs::Listed::looked_up))]
    fn number(&mut self, pair: Pair) -> Option<u32> {
        let head = self.head_of(pair);
        if let Some(number) = self.number_from(head, pair) {
            return Some(number);
        }
        if self.count() >= self.capacity() {
            return None;
        }
        Some(self.append(pair, head))
    }
}

// The bucket that a pair belongs to.
ghost use Rattle.std.specs.Prelude.{◌≡◌, ◌<◌};
ghost use Rattle.registers.specs.Mixing.{mix, bucket_index};

use crate::pairs::Pair;

// More buckets than this are of no use: no register holds more than half as many pairs.
const MOST_BUCKETS: usize = 65_536;

// Two rounds of an odd multiplier, with the upper bits of the first brought down in between,
// so that neighbours in either half fall far apart in the upper bits.
#[tactic(auto, unfolding(crate::specs::Mixing::mix))]
fn mixed(pair: Pair) -> u32
    ensures { result ≡ mix pair }
{
    let first = pair.first.wrapping_mul(0x9e37_79b1);
    (first ^ (first >> 15))
        .wrapping_add(pair.second)
        .wrapping_mul(0x85eb_ca6b)
}

// The mixed number is scaled down to the buckets by a product and a shift, which is cheaper than a remainder.
#[tactic(auto, using(crate::proofs::Mixed::bucket_within), unfolding(crate::specs::Mixing::bucket_index))]
pub(crate) fn bucket_of(pair: Pair, buckets: usize) -> usize
    requires { 0 < buckets }
    ensures value { result ≡ bucket_index buckets pair }
    ensures within { result < buckets }
{
    let used = buckets.min(MOST_BUCKETS) as u64;
    ((u64::from(mixed(pair)) * used) >> 32) as usize
}

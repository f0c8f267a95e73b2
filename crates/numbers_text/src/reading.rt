// Pairs as text: two numbers of 32 bits with one space between.
ghost use Rattle.std.specs.Prelude.{◌≡◌};
ghost use Rattle.numbers_text.specs.Typed.{pair_typed};

use registers::Pair;
use typed::{find_space, read_number};

pub fn read_pair(text: &[u8]) -> Option<Pair>
    ensures { result ≡ pair_typed text.now }
{
    let space = find_space(text)?;
    let first = read_number(&text[..space])?;
    let second = read_number(&text[space + 1..])?;
    Some(Pair { first, second })
}

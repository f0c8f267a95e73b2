// Decimal notation without leading zeros.
ghost use Rattle.std.specs.Prelude.{◌≡◌, ◌+◌, ◌<◌, ◌≤◌, true, length, decimal, MatchOption};
ghost use Rattle.std.specs.Str.{all_ascii_digits};
ghost use Rattle.names.specs.Decimals.{number_read, value_from, ill_led};

use itoa::Buffer;

// What the digits write, if they are digits alone and it is at most `most`. `parse` would take a sign too.
fn value(digits: &[u8], most: u8) -> Option<u8>
    ensures { MatchOption result (all_ascii_digits digits.now ≡ true → most < value_from 0 digits.now) (λ v. (all_ascii_digits digits.now ≡ true) × (v ≡ value_from 0 digits.now) × (v ≤ most)) }
{
    let mut value: u16 = 0;
    for digit in digits {
        if !digit.is_ascii_digit() {
            return None;
        }
        value = value * 10 + u16::from(*digit - b'0');
        if value > u16::from(most) {
            return None;
        }
    }
    Some(value as u8)
}

// Whether the digits are none, or begin with a 0 that is not the only one.
fn ill_led(digits: &[u8]) -> bool
    ensures { result ≡ ill_led digits.now }
{
    matches!(digits, [] | [b'0', _, ..])
}

// The number from `least` to `most` whose decimal notation the bytes are.
pub(crate) fn read_number(digits: &[u8], least: u8, most: u8) -> Option<u8>
    ensures { result ≡ number_read least most digits.now }
{
    if ill_led(digits) {
        return None;
    }
    let number = value(digits, most)?;
    (number >= least).then_some(number)
}

pub(crate) fn decimal_length(number: u32) -> usize
    ensures value { result ≡ length (decimal number) }
    ensures few { result ≤ 10 }
{
    Buffer::new().format(number).len()
}

// Words and numbers as they are typed on a line, with one space between them.
#![tactic(auto)]

ghost use Rattle.std.specs.Prelude.{◌≡◌, ◌<◌, ◌≤◌, IfSome, length, position, ◌==◌};
ghost use Rattle.typed.specs.Typed.{with_digit, number_typed, space_place, first_word, behind};

// The number so far with one more digit, or none where the byte is no digit or the number would not fit.
// Digits are read here, and not by `parse`, which takes a sign too.
fn with_digit(number: u32, byte: u8) -> Option<u32>
    ensures { result ≡ with_digit number byte }
{
    let digit = char::from(byte).to_digit(10)?;
    number.checked_mul(10)?.checked_add(digit)
}

#[tactic(auto, using(crate::proofs::Digits::value_off))]
pub fn read_number(text: &[u8]) -> Option<u32>
    ensures { result ≡ number_typed text.now }
{
    if text.is_empty() {
        return None;
    }
    let mut number = 0;
    for byte in text {
        number = with_digit(number, *byte)?;
    }
    Some(number)
}

// The place of the first space, or the length where there is none.
pub fn space_at(text: &[u8]) -> usize
    ensures value { result ≡ space_place text.now }
    ensures within { result ≤ length text.now }
{
    text.iter().take_while(|byte| **byte != b' ').count()
}

// The place of the first space, if there is one.
pub fn find_space(text: &[u8]) -> Option<usize>
    ensures value { result ≡ position (λ c. c == 32) text.now }
    ensures within { IfSome result (λ i. i < length text.now) }
{
    text.iter().position(|byte| *byte == b' ')
}

// The first word, and what stands behind the space after it.
pub fn cut(text: &[u8]) -> (&[u8], &[u8])
    ensures word { result.0.now ≡ first_word text.now }
    ensures rest { result.1.now ≡ behind text.now }
{
    match find_space(text) {
        Some(space) => (&text[..space], &text[space + 1..]),
        None => (text, &[]),
    }
}

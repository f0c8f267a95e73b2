// The octaves and lengths that notes and rests may have.
ghost use Rattle.std.specs.Prelude.{◌≡◌};
ghost use Rattle.names.specs.Tokens.{lasting, sung};

// A length is a number from 1 to 64.
pub fn is_length(number: u8) -> bool
    ensures { result ≡ lasting number }
{
    (1..=64).contains(&number)
}

// An octave is a number from 0 to 9.
pub fn is_sung(octave: u8, length: u8) -> bool
    ensures { result ≡ sung octave length }
{
    octave <= 9 && is_length(length)
}

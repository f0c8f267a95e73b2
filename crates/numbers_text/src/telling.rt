// What is told of each pair.
ghost use Rattle.std.specs.Prelude.{◌≡◌, ℕ, List, length};
ghost use Rattle.registers.specs.declared.pairs.Pair.{Pair};
ghost use Rattle.registers.specs.Pairs.{number_in};
ghost use Rattle.registers.specs.Holding.{holding};
ghost use Rattle.numbers_text.specs.Told.{told, told_of, counted};

use std::fmt;

// Whether a pair was appended, was held before, or found no place.
#[derive(Clone, Copy, PartialEq, Eq, Debug)]
pub enum Word {
    New,
    Known,
    Refused,
}

// The word for the number that a register gave, with the count of its pairs before.
#[tactic(auto, using(crate::proofs::Words::told_right))]
pub fn word_for(number: Option<u32>, count: u32) -> Word
    ensures value { result ≡ told number count }
    ensures right { (room : ℕ) (qs : List Pair) (p : Pair) → length qs ≡ count → number ≡ number_in (holding room qs p) p → result ≡ told_of room qs p }
{
    match number {
        Some(number) if number > count => Word::New,
        Some(_) => Word::Known,
        None => Word::Refused,
    }
}

// How many pairs the register has after it gave the number, with the count before.
#[tactic(auto, using(crate::proofs::Words::counted_right))]
pub fn count_after(number: Option<u32>, count: u32) -> u32
    ensures value { result ≡ counted number count }
    ensures right { (room : ℕ) (qs : List Pair) (p : Pair) → length qs ≡ count → number ≡ number_in (holding room qs p) p → result ≡ length (holding room qs p) }
{
    number.unwrap_or(count).max(count)
}

impl fmt::Display for Word {
    fn fmt<W: fmt::Write>(&self, f: &mut fmt::Formatter<W>) -> fmt::Result {
        f.write_str(match self {
            Word::New => "new",
            Word::Known => "known",
            Word::Refused => "refused",
        })
    }
}

// A register's answer as it is printed: the number, or a stroke for none.
#[derive(Clone, Copy)]
pub struct Answer(pub Option<u32>);

impl fmt::Display for Answer {
    fn fmt<W: fmt::Write>(&self, f: &mut fmt::Formatter<W>) -> fmt::Result {
        match self.0 {
            Some(number) => write!(f, "{number}"),
            None => f.write_str("-"),
        }
    }
}

// Pitches as they are written: a step of the scale and how it is altered. The numbers are those of the format.
ghost use Rattle.std.specs.Prelude.{◌≡◌};
ghost use Rattle.std.specs.Option.{ok_or};
ghost use Rattle.names.specs.declared.refusals.Refusal.TheVariants.{OutOfRange};
ghost use Rattle.names.specs.Pitches.{naming_number, naming_numbered, naming_word, naming_named, step_number, step_numbered, alteration_number, alteration_numbered};

use crate::refusals::Refusal;

// The list of names in which notes are read or written.
#[derive(Clone, Copy, PartialEq, Eq)]
pub enum Naming {
    English,
    German,
}

#[derive(Clone, Copy, PartialEq, Eq)]
pub enum Step {
    C,
    D,
    E,
    F,
    G,
    A,
    B,
}

#[derive(Clone, Copy, PartialEq, Eq)]
pub enum Alteration {
    DoubleFlat,
    Flat,
    Natural,
    Sharp,
    DoubleSharp,
}

#[derive(Clone, Copy, PartialEq, Eq)]
pub struct Pitch {
    pub step: Step,
    pub alteration: Alteration,
}

impl From<Naming> for u8 {
    ghost from_gives = { λ naming n. n ≡ naming_number naming };

    fn from(naming: Naming) -> u8 {
        naming as u8
    }
}

impl TryFrom<u8> for Naming {
    type Error = Refusal;

    ghost try_from_gives = { λ n r. r ≡ ok_or (naming_numbered n) OutOfRange };

    fn try_from(number: u8) -> Result<Naming, Refusal> {
        match number {
            0 => Ok(Naming::English),
            1 => Ok(Naming::German),
            _ => Err(Refusal::OutOfRange),
        }
    }
}

impl Naming {
    // The naming that a word sets.
    pub fn named(word: &[u8]) -> Option<Naming>
        ensures { result ≡ naming_named word.now }
    {
        match word {
            b"english" => Some(Naming::English),
            b"german" => Some(Naming::German),
            _ => None,
        }
    }

    // The word that sets the naming in a text.
    pub fn word(self) -> &'static [u8]
        ensures { result.now ≡ naming_word self }
    {
        match self {
            Naming::English => b"english",
            Naming::German => b"german",
        }
    }
}

impl From<Step> for u8 {
    ghost from_gives = { λ step n. n ≡ step_number step };

    fn from(step: Step) -> u8 {
        step as u8
    }
}

impl TryFrom<u8> for Step {
    type Error = Refusal;

    ghost try_from_gives = { λ n r. r ≡ ok_or (step_numbered n) OutOfRange };

    fn try_from(number: u8) -> Result<Step, Refusal> {
        match number {
            0 => Ok(Step::C),
            1 => Ok(Step::D),
            2 => Ok(Step::E),
            3 => Ok(Step::F),
            4 => Ok(Step::G),
            5 => Ok(Step::A),
            6 => Ok(Step::B),
            _ => Err(Refusal::OutOfRange),
        }
    }
}

impl From<Alteration> for i8 {
    ghost from_gives = { λ alteration n. n ≡ alteration_number alteration };

    fn from(alteration: Alteration) -> i8 {
        match alteration {
            Alteration::DoubleFlat => -2,
            Alteration::Flat => -1,
            Alteration::Natural => 0,
            Alteration::Sharp => 1,
            Alteration::DoubleSharp => 2,
        }
    }
}

impl TryFrom<i8> for Alteration {
    type Error = Refusal;

    ghost try_from_gives = { λ n r. r ≡ ok_or (alteration_numbered n) OutOfRange };

    fn try_from(number: i8) -> Result<Alteration, Refusal> {
        match number {
            -2 => Ok(Alteration::DoubleFlat),
            -1 => Ok(Alteration::Flat),
            0 => Ok(Alteration::Natural),
            1 => Ok(Alteration::Sharp),
            2 => Ok(Alteration::DoubleSharp),
            _ => Err(Refusal::OutOfRange),
        }
    }
}

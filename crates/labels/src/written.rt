// The label of a note as it is written.
ghost use Rattle.std.specs.Prelude.{◌≡◌, true};
ghost use Rattle.names.specs.Tokens.{sung};
ghost use Rattle.std.specs.Option.{option_map};
ghost use Rattle.labels.specs.Spellings.{written_spelling, written_made};
ghost use Rattle.labels.specs.Kinds.{sung_small, written_spells};

use crate::labels::Label;
use names::{Pitch, is_sung};

#[derive(Clone, Copy)]
pub struct WrittenNote {
    pitch: Pitch,
    octave: u8,
    length: u8,
    ghost sung: { sung octave length ≡ true },
}

impl WrittenNote {
    // The note, if the octave is at most 9 and the length is from 1 to 64.
    pub fn new(pitch: Pitch, octave: u8, length: u8) -> Option<WrittenNote>
        ensures { option_map (λ n. written_spelling n.pitch n.octave n.length) result ≡ written_made pitch octave length }
    {
        if !is_sung(octave, length) {
            return None;
        }
        Some(WrittenNote {
            pitch,
            octave,
            length,
        })
    }
}

impl Label for WrittenNote {
    const KIND: u16 = 1;

    const LONGEST: u16 = 5;

    ghost kind = { 1 };

    ghost longest = { 5 };

    ghost spelling = { λ n. written_spelling n.pitch n.octave n.length };

    ghost spells = { λ n. written_spells n.pitch n.octave n.length (sung_small n.octave n.length n.sung) };

    fn kind_number() -> u16 {
        Self::KIND
    }

    fn longest_spelling() -> u16 {
        Self::LONGEST
    }

    fn spelled_len(&self) -> u16 {
        5
    }

    fn spelled_at(&self, place: u16) -> u16 {
        match place {
            0 => Self::KIND,
            1 => self.pitch.step as u16,
            2 => self.pitch.alteration as u16,
            3 => u16::from(self.octave),
            4 => u16::from(self.length),
            _ => 0,
        }
    }
}

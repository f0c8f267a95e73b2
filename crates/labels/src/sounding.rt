// The label of a note as it sounds, whichever name it was written with.
ghost use Rattle.std.specs.Prelude.{◌≡◌, ◌≤◌, true};
ghost use Rattle.names.specs.Tokens.{lasting};
ghost use Rattle.std.specs.Option.{option_map};
ghost use Rattle.labels.specs.Spellings.{half_tones, sounding, sounding_spelling, sounding_made};
ghost use Rattle.labels.specs.Kinds.{length_small, raised_low, sounding_spells};

use crate::labels::Label;
use names::{Pitch, Step, is_sung};

// `sounds` is the sounding number + 2, from 0 to 123.
#[derive(Clone, Copy)]
pub struct SoundingNote {
    sounds: u8,
    length: u8,
    ghost low: { sounds ≤ 123 },
    ghost lasting: { lasting length ≡ true },
}

impl SoundingNote {
    // The note, if the octave is at most 9 and the length is from 1 to 64.
    pub fn new(pitch: Pitch, octave: u8, length: u8) -> Option<SoundingNote>
        ensures { option_map (λ n. sounding_spelling n.sounds n.length) result ≡ sounding_made pitch octave length }
    {
        if !is_sung(octave, length) {
            return None;
        }
        let sounds = sounding_raised(pitch, octave);
        Some(SoundingNote { sounds, length })
    }
}

// The sounding number + 2, which is never below 0.
fn sounding_raised(pitch: Pitch, octave: u8) -> u8
    requires { octave ≤ 9 }
    ensures value { result ≡ sounding pitch octave }
    ensures low { result ≤ 123 }
{
    12 * octave + half_tones(pitch.step) + pitch.alteration as u8
}

// The half tones from C up to each step, by its number. A `match` would say it in seven lines.
static HALF_TONES: [u8; 7] = [0, 2, 4, 5, 7, 9, 11];

fn half_tones(step: Step) -> u8
    ensures value { result ≡ half_tones step }
    ensures low { result ≤ 11 }
{
    HALF_TONES[step as usize]
}

impl Label for SoundingNote {
    const KIND: u16 = 5;

    const LONGEST: u16 = 3;

    ghost kind = { 5 };

    ghost longest = { 3 };

    ghost spelling = { λ n. sounding_spelling n.sounds n.length };

    ghost spells = { λ n. sounding_spells n.sounds n.length (raised_low n.sounds n.low) (length_small n.length n.lasting) };

    fn kind_number() -> u16 {
        Self::KIND
    }

    fn longest_spelling() -> u16 {
        Self::LONGEST
    }

    fn spelled_len(&self) -> u16 {
        3
    }

    fn spelled_at(&self, place: u16) -> u16 {
        match place {
            0 => Self::KIND,
            1 => u16::from(self.sounds),
            2 => u16::from(self.length),
            _ => 0,
        }
    }
}

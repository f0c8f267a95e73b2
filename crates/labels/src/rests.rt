// The label of a rest.
ghost use Rattle.std.specs.Prelude.{◌≡◌, true};
ghost use Rattle.names.specs.Tokens.{lasting};
ghost use Rattle.std.specs.Option.{option_map};
ghost use Rattle.labels.specs.Spellings.{rest_spelling, rest_made};
ghost use Rattle.labels.specs.Kinds.{length_small, rest_spells};

use crate::labels::Label;
use names::is_length;

#[derive(Clone, Copy)]
pub struct RestLabel {
    length: u8,
    ghost lasting: { lasting length ≡ true },
}

impl RestLabel {
    // The rest, if the length is from 1 to 64.
    pub fn new(length: u8) -> Option<RestLabel>
        ensures { option_map (λ n. rest_spelling n.length) result ≡ rest_made length }
    {
        if is_length(length) {
            Some(RestLabel { length })
        } else {
            None
        }
    }
}

impl Label for RestLabel {
    const KIND: u16 = 2;

    const LONGEST: u16 = 2;

    ghost kind = { 2 };

    ghost longest = { 2 };

    ghost spelling = { λ n. rest_spelling n.length };

    ghost spells = { λ n. rest_spells n.length (length_small n.length n.lasting) };

    fn kind_number() -> u16 {
        Self::KIND
    }

    fn longest_spelling() -> u16 {
        Self::LONGEST
    }

    fn spelled_len(&self) -> u16 {
        2
    }

    fn spelled_at(&self, place: u16) -> u16 {
        match place {
            0 => Self::KIND,
            1 => u16::from(self.length),
            _ => 0,
        }
    }
}

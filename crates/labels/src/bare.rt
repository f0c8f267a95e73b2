// The label of a bare node, which only its rank tells from another.
ghost use Rattle.labels.specs.Spellings.{bare_spelling};
ghost use Rattle.labels.specs.Kinds.{bare_spells};

use crate::labels::Label;

#[derive(Clone, Copy)]
pub struct Bare;

impl Label for Bare {
    const KIND: u16 = 0;

    const LONGEST: u16 = 1;

    ghost kind = { 0 };

    ghost longest = { 1 };

    ghost spelling = { λ _. bare_spelling };

    ghost spells = { λ _. bare_spells };

    fn kind_number() -> u16 {
        Self::KIND
    }

    fn longest_spelling() -> u16 {
        Self::LONGEST
    }

    fn spelled_len(&self) -> u16 {
        1
    }

    fn spelled_at(&self, place: u16) -> u16 {
        if place == 0 { Self::KIND } else { 0 }
    }
}

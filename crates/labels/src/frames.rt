// The label of a frame: its keyword.
ghost use Rattle.std.specs.Prelude.{◌≡◌};
ghost use Rattle.labels.specs.Spellings.{frame_spelling};
ghost use Rattle.labels.specs.Kinds.{frame_spells};

use crate::labels::Label;
use names::Keyword;

#[derive(Clone, Copy)]
pub struct FrameLabel {
    keyword: Keyword,
}

impl FrameLabel {
    pub fn new(keyword: Keyword) -> FrameLabel
        ensures { frame_spelling result.keyword ≡ frame_spelling keyword }
    {
        FrameLabel { keyword }
    }
}

impl Label for FrameLabel {
    const KIND: u16 = 4;

    const LONGEST: u16 = 2;

    ghost kind = { 4 };

    ghost longest = { 2 };

    ghost spelling = { λ f. frame_spelling f.keyword };

    ghost spells = { λ f. frame_spells f.keyword };

    fn kind_number() -> u16 {
        Self::KIND
    }

    fn longest_spelling() -> u16 {
        Self::LONGEST
    }

    fn spelled_len(&self) -> u16 {
        2
    }

    fn spelled_at(&self, place: u16) -> u16 {
        match place {
            0 => Self::KIND,
            1 => self.keyword as u16,
            _ => 0,
        }
    }
}

// The label of a syllable: that part of the typed text itself, which it borrows.
ghost use Rattle.std.specs.Prelude.{◌≡◌, ℕ, ◌<◌, true, slice_index};
ghost use Rattle.std.specs.Option.{option_map};
ghost use Rattle.labels.specs.Spellings.{syllable_spelling, syllabic, syllable_made};
ghost use Rattle.labels.specs.Kinds.{syllable_short, syllable_spells};

use crate::labels::Label;

#[derive(Clone, Copy)]
pub struct SyllableLabel<'a> {
    bytes: &'a [u8],
    ghost syllabic: { syllabic bytes.now ≡ true },
    ghost small: { (i : ℕ) → slice_index bytes.now i < 256 },
}

impl<'a> SyllableLabel<'a> {
    // The syllable of the bytes, if they are 1 to 30.
    pub fn new(bytes: &'a [u8]) -> Option<SyllableLabel<'a>>
        ensures { option_map (λ s. syllable_spelling s.bytes.now) result ≡ syllable_made bytes.now }
    {
        if is_syllable(bytes) {
            Some(SyllableLabel { bytes })
        } else {
            None
        }
    }
}

impl SyllableLabel<'_> {
    // The byte at a place, and 0 past the end.
    fn byte_at(&self, at: u16) -> u16
        ensures { result ≡ slice_index self.now.bytes.now at }
    {
        self.bytes
            .get(usize::from(at))
            .map_or(0, |byte| u16::from(*byte))
    }
}

// A syllable has 1 to 30 bytes. A typed one is judged in `names`, by which bytes they are as well.
fn is_syllable(bytes: &[u8]) -> bool
    ensures { result ≡ syllabic bytes.now }
{
    (1..=30).contains(&bytes.len())
}

impl<'a> Label for SyllableLabel<'a> {
    const KIND: u16 = 3;

    const LONGEST: u16 = 31;

    ghost kind = { 3 };

    ghost longest = { 31 };

    ghost spelling = { λ s. syllable_spelling s.bytes.now };

    ghost spells = { λ s. syllable_spells s.bytes.now (syllable_short s.bytes.now s.syllabic) s.small };

    fn kind_number() -> u16
        ensures { result ≡ 3 }
    {
        Self::KIND
    }

    fn longest_spelling() -> u16
        ensures { result ≡ 31 }
    {
        Self::LONGEST
    }

    fn spelled_len(&self) -> u16 {
        1 + self.bytes.len() as u16
    }

    fn spelled_at(&self, place: u16) -> u16 {
        match place.checked_sub(1) {
            Some(at) => self.byte_at(at),
            None => Self::KIND,
        }
    }
}

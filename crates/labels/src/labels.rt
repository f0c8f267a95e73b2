// What a label is, whoever wrote its kind: a spelling, a list of 1 to 32 numbers below 65,536.
ghost use Rattle.std.specs.Prelude.{◌≡◌, ℕ, List, length, Decides, ◌==◌, slice_index};
ghost use Rattle.labels.specs.Spellings.{Spells};

pub trait Label {
    // The kind number, the format's own, with which each spelling of the kind begins, and how many numbers its longest
    // spelling has.
    const KIND: u16;

    const LONGEST: u16;

    // The meaning: the same two numbers, the spelling, and what holds of it.
    ghost kind: { ℕ };

    ghost longest: { ℕ };

    ghost spelling: { Self → List ℕ };

    ghost spells: { (x : Self) → Spells kind longest (spelling x) };

    // The constants, for code that works with any kind. Each kind writes them out: the trait could provide them
    // only with ghost members under the constants' names, which the check cannot state for a kind that borrows.
    fn kind_number() -> u16
        ensures { result ≡ kind };

    fn longest_spelling() -> u16
        ensures { result ≡ longest };

    // How many numbers spell the label.
    fn spelled_len(&self) -> u16
        ensures { result ≡ length (spelling self.now) };

    // The number at a place of the spelling, from 0, and 0 past its end. As an `Option` it would say what `spelled_len` says.
    fn spelled_at(&self, place: u16) -> u16
        ensures { result ≡ slice_index (spelling self.now) place };
}

// Whether two labels of any kinds are equal: their spellings are the same list.
pub fn same_label<L: Label, M: Label>(left: &L, right: &M) -> bool
    ensures { Decides result (L.Label.spelling left.now ≡ M.Label.spelling right.now) }
{
    let len = left.spelled_len();
    right.spelled_len() == len && (0..len).all(|place| same_at(left, right, place))
}

// Whether the spellings have the same number at the place.
fn same_at<L: Label, M: Label>(left: &L, right: &M, place: u16) -> bool
    ensures { result ≡ (slice_index (L.Label.spelling left.now) place == slice_index (M.Label.spelling right.now) place) }
{
    left.spelled_at(place) == right.spelled_at(place)
}

// The kind number of a label, which its spelling begins with.
pub fn kind_of<L: Label>(label: &L) -> u16
    ensures { result ≡ slice_index (L.Label.spelling label.now) 0 }
{
    L::kind_number()
}

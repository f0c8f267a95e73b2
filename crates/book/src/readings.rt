// The ways in which a text's words are labelled.

// Written: notes by their names, rests, syllables and frames as they are typed.
// Sounding: notes as they sound, the rest as written. Bare: no labels, only ranks.
#[derive(Clone, Copy)]
pub enum Reading {
    Written,
    Sounding,
    Bare,
}

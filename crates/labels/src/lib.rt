// Labels: what words are spelled with. A label's meaning is its spelling, a list of numbers.
#![tactic(auto)]

mod bare;
mod frames;
mod labels;
mod rests;
mod sounding;
mod syllables;
mod written;

pub use bare::Bare;
pub use frames::FrameLabel;
pub use labels::{Label, kind_of, same_label};
pub use rests::RestLabel;
pub use sounding::SoundingNote;
pub use syllables::SyllableLabel;
pub use written::WrittenNote;

// Note names: German and English, read and written.
ghost use Rattle.std.specs.Prelude.{◌≡◌};
ghost use Rattle.names.specs.Buffers.{written};
ghost use Rattle.names.specs.Letters.{lettered_step, ended, alteration_at};
ghost use Rattle.names.specs.NameLaws.{NameLists};
ghost use Rattle.names.specs.Names.{name, pitch_read, name_written};

use crate::pitches::{Alteration, Naming, Pitch, Step};
use crate::refusals::Refusal;

// The two lists of names: a row for each step, from double flat to double sharp.
static ENGLISH: [[&'static [u8]; 5]; 7] = [
    [b"Cbb", b"Cb", b"C", b"C#", b"C##"],
    [b"Dbb", b"Db", b"D", b"D#", b"D##"],
    [b"Ebb", b"Eb", b"E", b"E#", b"E##"],
    [b"Fbb", b"Fb", b"F", b"F#", b"F##"],
    [b"Gbb", b"Gb", b"G", b"G#", b"G##"],
    [b"Abb", b"Ab", b"A", b"A#", b"A##"],
    [b"Bbb", b"Bb", b"B", b"B#", b"B##"],
];

// The step B is H, but for B flat.
static GERMAN: [[&'static [u8]; 5]; 7] = [
    [b"Ceses", b"Ces", b"C", b"Cis", b"Cisis"],
    [b"Deses", b"Des", b"D", b"Dis", b"Disis"],
    [b"Eses", b"Es", b"E", b"Eis", b"Eisis"],
    [b"Feses", b"Fes", b"F", b"Fis", b"Fisis"],
    [b"Geses", b"Ges", b"G", b"Gis", b"Gisis"],
    [b"Ases", b"As", b"A", b"Ais", b"Aisis"],
    [b"Heses", b"B", b"H", b"His", b"Hisis"],
];

pub(crate) fn spelling(naming: Naming, pitch: Pitch) -> &'static [u8]
    ensures { result.now ≡ name naming pitch }
{
    match naming {
        Naming::English => ENGLISH[pitch.step as usize][pitch.alteration as usize],
        Naming::German => GERMAN[pitch.step as usize][pitch.alteration as usize],
    }
}

// The step that a name's first byte stands for. It is matched as a character, a form that is wanted (docs/DECISIONS.md).
fn lettered(naming: Naming, first: u8) -> Option<Step>
    ensures { result ≡ lettered_step naming first }
{
    match first as char {
        'C' => Some(Step::C),
        'D' => Some(Step::D),
        'E' => Some(Step::E),
        'F' => Some(Step::F),
        'G' => Some(Step::G),
        'A' => Some(Step::A),
        'B' => Some(Step::B),
        'H' if naming == Naming::German => Some(Step::B),
        _ => None,
    }
}

// The alteration that an ending points to, in either naming, by its first byte and its length.
fn ending(suffix: &[u8]) -> Alteration
    ensures { result ≡ ended suffix.now }
{
    match suffix {
        [] => Alteration::Natural,
        [b'#'] => Alteration::Sharp,
        [b'#', ..] => Alteration::DoubleSharp,
        [b'i', _] => Alteration::Sharp,
        [b'i', ..] => Alteration::DoubleSharp,
        [b'e', _] => Alteration::Flat,
        [b'e', ..] => Alteration::DoubleFlat,
        [_] => Alteration::Flat,
        _ => Alteration::DoubleFlat,
    }
}

// The alteration that a name's parts point to.
fn altered(naming: Naming, first: u8, suffix: &[u8]) -> Alteration
    ensures { result ≡ alteration_at naming first suffix.now }
{
    match (naming, first) {
        (Naming::German, b'B') => Alteration::Flat,
        _ => ending(suffix),
    }
}

// The pitch whose name the bytes are: the one that their parts point to, if that has just this name.
pub fn read_name(naming: Naming, name: &[u8]) -> Result<Pitch, Refusal>
    ensures value { result ≡ pitch_read naming name.now }
    ensures lists { NameLists }
{
    let [first, rest @ ..] = name else {
        return Err(Refusal::UnknownName);
    };
    let step = lettered(naming, *first).ok_or(Refusal::UnknownName)?;
    let pitch = Pitch {
        step,
        alteration: altered(naming, *first, rest),
    };
    if spelling(naming, pitch) == name {
        Ok(pitch)
    } else {
        Err(Refusal::UnknownName)
    }
}

// Writes the name at the buffer's start, and answers its length.
pub fn write_name(naming: Naming, pitch: Pitch, out: &mut [u8]) -> Result<usize, Refusal>
    ensures count { result ≡ name_written naming pitch out.old }
    ensures after { out.new ≡ written out.old 0 (name naming pitch) }
{
    let name = spelling(naming, pitch);
    if name.len() > out.len() {
        return Err(Refusal::NameBufferTooShort);
    }
    out[..name.len()].copy_from_slice(name);
    Ok(name.len())
}

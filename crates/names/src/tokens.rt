// Tokens: the runs of bytes that a text is made of.
ghost use Rattle.std.specs.Prelude.{◌≡◌, ◌≤◌, length, drop};
ghost use Rattle.names.specs.Heard.{Hears};
ghost use Rattle.names.specs.TokenLaws.{TokenLaws};
ghost use Rattle.names.specs.Tokens.{gap, plain, each, colon, syllabled, quoted, syllable_read, note_read, rest_read, frame_read, rest_begun, begun, token_read};

use crate::decimals::read_number;
use crate::keywords::Keyword;
use crate::notes::scan;
use crate::pitches::{Naming, Pitch};
use crate::refusals::Refusal;
use crate::spellings::read_name;

// What the beginning of a token makes of it: judged by itself, so that one definition says it.
#[derive(Clone, Copy)]
pub enum Kind {
    Syllable,
    Note,
    Rest,
    Frame,
}

// A note, with its name as it was typed.
#[derive(Clone, Copy)]
pub struct Note<'a> {
    pub name: &'a [u8],
    pub pitch: Pitch,
    pub octave: u8,
    pub length: u8,
}

#[derive(Clone, Copy)]
pub enum Token<'a> {
    Naming(Naming),
    Syllable(&'a [u8]),
    Note(Note<'a>),
    Rest { length: u8 },
    Frame { keyword: Keyword, rank: u8 },
}

// Whether the bytes may stand between the quotes of a syllable.
pub(crate) fn is_syllable(bytes: &[u8]) -> bool
    ensures { result ≡ syllabled bytes.now }
{
    (1..=30).contains(&bytes.len()) && all_plain(bytes)
}

pub(crate) fn is_gap(byte: u8) -> bool
    ensures { result ≡ gap byte }
{
    matches!(byte, b' ' | b'\n')
}

fn is_plain(byte: u8) -> bool
    ensures { result ≡ plain byte }
{
    byte != b'"' && !is_gap(byte)
}

fn all_plain(bytes: &[u8]) -> bool
    ensures { result ≡ each plain bytes.now }
{
    bytes.iter().all(|byte| is_plain(*byte))
}

fn read_syllable<'a>(bytes: &'a [u8]) -> Result<Token<'a>, Refusal>
    ensures { Hears bytes.now result (syllable_read bytes.now) }
{
    match bytes {
        [b'"', inside @ .., b'"'] if is_syllable(inside) => Ok(Token::Syllable(inside)),
        _ => Err(Refusal::NotOfForm),
    }
}

fn read_note<'a>(naming: Option<Naming>, bytes: &'a [u8]) -> Result<Token<'a>, Refusal>
    requires { length bytes.now ≤ 64 }
    ensures { Hears bytes.now result (note_read naming bytes.now) }
{
    let naming = naming.ok_or(Refusal::NoNaming)?;
    let reader = scan(bytes);
    let (name, tail) = bytes.split_at(reader.name);
    let pitch = read_name(naming, name)?;
    if !reader.is_struck() {
        return Err(Refusal::BadOctaveOrLength);
    }
    let (_, digits) = tail.split_at(2);
    let length = read_number(digits, 1, 64).ok_or(Refusal::BadOctaveOrLength)?;
    Ok(Token::Note(Note {
        name,
        pitch,
        octave: reader.octave,
        length,
    }))
}

fn read_rest<'a>(bytes: &'a [u8]) -> Result<Token<'a>, Refusal>
    requires { 2 ≤ length bytes.now }
    ensures { Hears bytes.now result (rest_read bytes.now) }
{
    let (_, digits) = bytes.split_at(2);
    let length = read_number(digits, 1, 64).ok_or(Refusal::BadOctaveOrLength)?;
    Ok(Token::Rest { length })
}

// How many bytes stand before the first colon. `typed` finds a space so, but does not lie beneath this crate.
fn before_colon(bytes: &[u8]) -> usize
    ensures value { result ≡ colon bytes.now }
    ensures within { result ≤ length bytes.now }
{
    bytes.iter().take_while(|byte| **byte != b':').count()
}

fn after_first(bytes: &[u8]) -> &[u8]
    ensures { result.now ≡ drop 1 bytes.now }
{
    match bytes {
        [_, rest @ ..] => rest,
        [] => bytes,
    }
}

fn read_frame<'a>(bytes: &'a [u8]) -> Result<Token<'a>, Refusal>
    ensures { Hears bytes.now result (frame_read bytes.now) }
{
    let (word, rest) = bytes.split_at(before_colon(bytes));
    let keyword = Keyword::named(word).ok_or(Refusal::NotOfForm)?;
    let rank = read_number(after_first(rest), 0, 255).ok_or(Refusal::NotOfForm)?;
    Ok(Token::Frame { keyword, rank })
}

fn begins(bytes: &[u8]) -> Kind
    ensures { result ≡ begun bytes.now }
{
    match bytes {
        [b'"', ..] => Kind::Syllable,
        [b'A'..=b'Z', ..] => Kind::Note,
        [b'r', b'/', ..] => Kind::Rest,
        _ => Kind::Frame,
    }
}

// What the bytes say under the naming in force.
pub fn read_token<'a>(naming: Option<Naming>, bytes: &'a [u8]) -> Result<Token<'a>, Refusal>
    ensures value { Hears bytes.now result (token_read naming bytes.now) }
    ensures laws { TokenLaws }
{
    if bytes.len() > 64 {
        return Err(Refusal::TokenTooLong);
    }
    if let Some(set) = Naming::named(bytes) {
        return Ok(Token::Naming(set));
    }
    match begins(bytes) {
        Kind::Syllable => read_syllable(bytes),
        Kind::Note => read_note(naming, bytes),
        Kind::Rest => read_rest(bytes),
        Kind::Frame => read_frame(bytes),
    }
}

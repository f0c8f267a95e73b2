// Tokens written to a caller's buffer.
ghost use Rattle.std.specs.Prelude.{◌≡◌, ◌≤◌, length, None};
ghost use Rattle.names.specs.Heard.{said, noted};
ghost use Rattle.names.specs.Names.{name};
ghost use Rattle.names.specs.Tokens.{spelled, malformed, quotes, marked, lengthened, placed, buffered};

use crate::decimals::decimal_length;
use crate::limits::{is_length, is_sung};
use crate::pen::{Pen, has_room};
use crate::pitches::{Naming, Pitch};
use crate::refusals::Refusal;
use crate::spellings::spelling;
use crate::tokens::{Note, Token, is_syllable};

fn name_length(naming: Naming, pitch: Pitch) -> usize
    ensures { result ≡ length (name naming pitch) }
{
    spelling(naming, pitch).len()
}

// How many bytes the token takes, in the naming.
pub fn token_length(naming: Naming, token: &Token) -> Result<usize, Refusal>
    ensures { result ≡ lengthened (malformed (said token.now)) (spelled naming (said token.now)) }
{
    match token {
        Token::Naming(set) => Ok(set.word().len()),
        Token::Syllable(bytes) if is_syllable(bytes) => Ok(bytes.len() + 2),
        Token::Syllable(_) => Err(Refusal::NotOfForm),
        Token::Note(note) if is_sung(note.octave, note.length) => {
            Ok(name_length(naming, note.pitch) + 2 + decimal_length(u32::from(note.length)))
        }
        Token::Rest { length } if is_length(*length) => {
            Ok(2 + decimal_length(u32::from(*length)))
        }
        Token::Note(_) | Token::Rest { .. } => Err(Refusal::BadOctaveOrLength),
        Token::Frame { keyword, rank } => {
            Ok(keyword.word().len() + 1 + decimal_length(u32::from(*rank)))
        }
    }
}

impl Pen<'_> {
    ghost use Rattle.names.specs.Pens.{HasRoom, Lays};

    fn lay_syllable(&mut self, bytes: &[u8])
        requires { HasRoom self.old (quotes bytes.now) }
        ensures { Lays self.old self.new (quotes bytes.now) }
    {
        self.lay_byte(b'"');
        self.lay(bytes);
        self.lay_byte(b'"');
    }

    // The bytes, a mark and a number.
    fn lay_marked(&mut self, bytes: &[u8], mark: u8, number: u8)
        requires { HasRoom self.old (marked bytes.now mark number) }
        ensures { Lays self.old self.new (marked bytes.now mark number) }
    {
        self.lay(bytes);
        self.lay_byte(mark);
        self.lay_decimal(u32::from(number));
    }

    fn lay_name(&mut self, naming: Naming, pitch: Pitch)
        requires { HasRoom self.old (name naming pitch) }
        ensures { Lays self.old self.new (name naming pitch) }
    {
        self.lay(spelling(naming, pitch));
    }

    fn lay_note(&mut self, naming: Naming, note: &Note)
        requires room { HasRoom self.old (spelled naming (noted note.now)) }
        requires octave { note.now.octave ≤ 9 }
        ensures { Lays self.old self.new (spelled naming (noted note.now)) }
    {
        self.lay_name(naming, note.pitch);
        self.lay_marked(&[b'0' + note.octave], b'/', note.length);
    }

    fn lay_token(&mut self, naming: Naming, token: &Token)
        requires room { HasRoom self.old (spelled naming (said token.now)) }
        requires formed { malformed (said token.now) ≡ None }
        ensures { Lays self.old self.new (spelled naming (said token.now)) }
    {
        match token {
            Token::Naming(set) => self.lay(set.word()),
            Token::Syllable(bytes) => self.lay_syllable(bytes),
            Token::Note(note) => self.lay_note(naming, note),
            Token::Rest { length } => self.lay_marked(b"r", b'/', *length),
            Token::Frame { keyword, rank } => self.lay_marked(keyword.word(), b':', *rank),
        }
    }
}

// Writes the token from the place on, and answers the place behind it.
pub fn write_token(
    naming: Naming,
    token: &Token,
    out: &mut [u8],
    at: usize,
) -> Result<usize, Refusal>
    ensures place { result ≡ placed (malformed (said token.now)) out.old at (spelled naming (said token.now)) }
    ensures after { out.new ≡ buffered (malformed (said token.now)) out.old at (spelled naming (said token.now)) }
{
    let length = token_length(naming, token)?;
    if !has_room(out.len(), at, length) {
        return Err(Refusal::BufferTooShort);
    }
    let mut pen = Pen::over(out, at);
    pen.lay_token(naming, token);
    Ok(pen.place())
}

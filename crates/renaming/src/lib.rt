// A text rewritten in the names of one naming.
#![tactic(auto)]

ghost use Rattle.std.specs.Prelude.{◌≡◌, ℕ, ◌<◌, ◌++◌, IfOk, None};
ghost use Rattle.names.specs.Heard.{said};
ghost use Rattle.names.specs.Reader.{told_of_placed};
ghost use Rattle.names.specs.Tokens.{malformed};
ghost use Rattle.renaming.specs.Renaming.{Few, added, Appends, Rewrites, Renames};
ghost use Rattle.renaming.specs.declared.Unrenamed.TheVariants.{Fault as Faulty, Memory};

use names::{Fault, Naming, Placed, Reader, Refusal, Token, write_token};
use std::alloc::{AllocError, AllocFailed, Global};
use std::error::Error;
use std::fmt;

// How many tokens of each kind a text has, and how many notes changed their name.
#[derive(Clone, Copy, Default)]
pub struct Tally {
    pub tokens: u32,
    pub notes: u32,
    pub syllables: u32,
    pub rests: u32,
    pub frames: u32,
    pub changed: u32,
}

#[derive(Drop)]
pub struct Renamed {
    pub text: Vec<u8>,
    pub tally: Tally,
}

#[derive(Clone, Copy, Debug)]
pub enum Unrenamed {
    Fault(Fault),
    Memory,
}

impl From<Fault> for Unrenamed {
    ghost from_gives = { λ f r. r ≡ Faulty f };

    fn from(fault: Fault) -> Unrenamed {
        Unrenamed::Fault(fault)
    }
}

impl From<AllocError> for Unrenamed {
    ghost from_gives = { λ _ r. r ≡ Memory };

    fn from(_error: AllocError) -> Unrenamed {
        Unrenamed::Memory
    }
}

impl<T: Drop> From<AllocFailed<T>> for Unrenamed {
    ghost from_gives = { λ _ r. r ≡ Memory };

    fn from(_error: AllocFailed<T>) -> Unrenamed {
        Unrenamed::Memory
    }
}

impl fmt::Display for Unrenamed {
    fn fmt<W: fmt::Write>(&self, f: &mut fmt::Formatter<W>) -> fmt::Result {
        match self {
            Unrenamed::Fault(met) => met.fmt(f),
            Unrenamed::Memory => f.write_str("there is not enough memory"),
        }
    }
}

impl Error for Unrenamed {}

impl Tally {
    // One token more.
    fn add(&mut self, token: &Token, changed: bool)
        requires { Few self.old }
        ensures { self.new ≡ added self.old (said token.now) changed }
    {
        self.tokens += 1;
        match token {
            Token::Naming(_) => {}
            Token::Syllable(_) => self.syllables += 1,
            Token::Note(_) => self.notes += 1,
            Token::Rest { .. } => self.rests += 1,
            Token::Frame { .. } => self.frames += 1,
        }
        if changed {
            self.changed += 1;
        }
    }
}

// Appends a word behind a space, and tells whether it is spelled otherwise than it was typed.
fn append(line: &mut Vec<u8>, to: Naming, placed: &Placed) -> Result<bool, AllocError>
    requires { malformed (said placed.now.token) ≡ None }
    ensures { IfOk result (λ b. Appends line.old.items line.new.items to (told_of_placed placed.now) b) }
{
    if let Token::Naming(_) = placed.token {
        return Ok(false);
    }
    // Room for any token, since that is written to a buffer.
    let mut bytes = [0u8; 64];
    let end = write_token(to, &placed.token, &mut bytes, 0).unwrap();
    let word = &bytes[..end];
    line.push(b' ')?;
    line.extend_from_slice(word)?;
    Ok(word != placed.bytes)
}

// The words of the text as one line in the naming, however long, and what was seen of the text.
fn rewrite(heap: Global, text: &[u8], to: Naming) -> Result<Renamed, Unrenamed>
    ensures { Rewrites text.now to result }
{
    let mut reader = Reader::over(text)?;
    let mut line = Vec::from_slice(heap, to.word())?;
    let mut tally = Tally::default();
    while let Some(placed) = reader.next_token()? {
        let changed = append(&mut line, to, &placed)?;
        tally.add(&placed.token, changed);
    }
    line.push(b'\n')?;
    Ok(Renamed { text: line, tally })
}

// The words of the text as a text in the naming.
pub fn rename(heap: Global, text: &[u8], to: Naming) -> Result<Renamed, Unrenamed>
    ensures { Renames text.now to result }
{
    let renamed = rewrite(heap, text, to)?;
    if renamed.text.len() > 65536 {
        return Err(Unrenamed::Fault(Fault {
            refusal: Refusal::TextTooLong,
            byte: 0,
        }));
    }
    Ok(renamed)
}

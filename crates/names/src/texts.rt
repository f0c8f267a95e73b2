// Texts: cut into tokens, and read token by token.
ghost use Rattle.std.specs.Prelude.{◌≡◌, ℕ, ◌+◌, ◌<◌, ◌≤◌, not, length, None, OnOk};
ghost use Rattle.names.specs.Cutting.{Stretch, same_answer};
ghost use Rattle.names.specs.Reader.{CutsFirst, unread, told_next, Lends, opened, opening};
ghost use Rattle.names.specs.Heard.{said};
ghost use Rattle.names.specs.Texts.{first_of, later, naming_after, pieces, told};
ghost use Rattle.names.specs.TextLaws.{TextLaws};
ghost use Rattle.names.specs.Tokens.{gap, run};

use crate::pitches::Naming;
use crate::refusals::{Fault, Refusal};
use crate::tokens::{Token, is_gap, read_token};

// The bytes of a token, the byte where it begins and the place behind it.
#[derive(Clone, Copy)]
pub struct Cut<'a> {
    pub byte: usize,
    pub end: usize,
    pub bytes: &'a [u8],
}

// A token, its bytes as they were typed, and the byte where it begins.
#[derive(Clone, Copy)]
pub struct Placed<'a> {
    pub byte: usize,
    pub bytes: &'a [u8],
    pub token: Token<'a>,
}

// Reads a text token by token, and keeps the naming in force.
#[derive(Clone, Copy)]
pub struct Reader<'a> {
    text: &'a [u8],
    at: usize,
    naming: Option<Naming>,
}

// How many bytes at the front are gaps, or are none. A flag and no closure, since its two answers are all that is asked for.
fn run_len(bytes: &[u8], gaps: bool) -> usize
    ensures value { result ≡ run (λ b. same_answer (gap b) gaps) bytes.now }
    ensures within { result ≤ length bytes.now }
{
    bytes
        .iter()
        .take_while(|byte| is_gap(**byte) == gaps)
        .count()
}

// The place behind the gaps from `at` on, or behind the token that begins there.
fn stretch_end(text: &[u8], at: usize, gaps: bool) -> usize
    ensures { Stretch gaps (not gaps) text.now at result }
{
    match text.get(at..) {
        Some(rest) => at + run_len(rest, gaps),
        None => at,
    }
}

// The first token from `at` on. The next one is the first from its end on.
pub fn next_cut<'a>(text: &'a [u8], at: usize) -> Option<Cut<'a>>
    ensures { CutsFirst text.now at result }
{
    let byte = stretch_end(text, at, true);
    let end = stretch_end(text, byte, false);
    if end == byte {
        return None;
    }
    Some(Cut {
        byte,
        end,
        bytes: &text[byte..end],
    })
}

fn naming_after(naming: Option<Naming>, token: &Token) -> Option<Naming>
    ensures { result ≡ naming_after naming (said token.now) }
{
    match token {
        Token::Naming(set) => Some(*set),
        _ => naming,
    }
}

impl<'a> Reader<'a> {
    // Before the first token. A text has at most 65,536 bytes.
    pub fn over(text: &'a [u8]) -> Result<Reader<'a>, Fault>
        ensures value { opened result ≡ opening text.now }
        ensures laws { OnOk result (TextLaws text.now) }
    {
        if text.len() > 65536 {
            return Err(Fault {
                refusal: Refusal::TextTooLong,
                byte: 0,
            });
        }
        Ok(Reader::at_start(text))
    }

    fn at_start(text: &'a [u8]) -> Reader<'a>
        ensures value { unread result ≡ told None (pieces 0 text.now) }
        ensures laws { TextLaws text.now }
    {
        Reader {
            text,
            at: 0,
            naming: None,
        }
    }

    // The next token, or none at the end. A fault stays: the reader does not go past it.
    pub fn next_token(&mut self) -> Result<Option<Placed<'a>>, Fault>
        ensures value { told_next result ≡ first_of (unread self.old).tokens (unread self.old).fault }
        ensures borrows { Lends result }
        ensures left { unread self.new ≡ later (unread self.old) }
    {
        let Some(cut) = next_cut(self.text, self.at) else {
            return Ok(None);
        };
        // Matched, where `map_err(..)?` would do: its closure borrows the cut, and the proof did not close.
        match read_token(self.naming, cut.bytes) {
            Ok(token) => {
                self.naming = naming_after(self.naming, &token);
                self.at = cut.end;
                Ok(Some(Placed {
                    byte: cut.byte,
                    bytes: cut.bytes,
                    token,
                }))
            }
            Err(refusal) => Err(Fault {
                refusal,
                byte: cut.byte,
            }),
        }
    }
}

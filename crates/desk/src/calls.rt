// Calls as they are typed: a verb, and what stands behind it.
use crate::verbs::Verb;
use book::{Call, Either, MOST_WORDS, Node, Reading};
use labels::{Bare, RestLabel, SyllableLabel};
use names::{Token, read_token};
use std::alloc::{AllocError, Global};
use std::fmt;
use typed::{cut, read_number};

// The kinds of nodes that can be taken one by one.
pub type Kind<'a> = Either<Node<Bare>, Either<Node<RestLabel>, Node<SyllableLabel<'a>>>>;

// Why a line is no call.
#[derive(Clone, Copy)]
pub enum Stray {
    NoVerb,
    NotOfForm(Verb),
    Memory,
}

impl From<AllocError> for Stray {
    fn from(_error: AllocError) -> Stray {
        Stray::Memory
    }
}

// What is said behind the line: how a call with its verb is typed.
impl fmt::Display for Stray {
    fn fmt<W: fmt::Write>(&self, f: &mut fmt::Formatter<W>) -> fmt::Result {
        match self {
            Stray::NoVerb => Ok(()),
            Stray::NotOfForm(verb) => {
                let form = verb.form();
                write!(f, "; the form is: {form}")
            }
            Stray::Memory => f.write_str("; there is not enough memory"),
        }
    }
}

// The call that a line types, with its verb.
pub fn read_call<'a>(heap: Global, line: &'a [u8]) -> Result<(Verb, Call<'a, Kind<'a>>), Stray> {
    let (word, rest) = cut(line);
    let verb = Verb::named(word).ok_or(Stray::NoVerb)?;
    Ok((verb, call_of(heap, verb, rest.trim_ascii_start())?))
}

// The call of a verb and what is typed behind it.
fn call_of<'a>(heap: Global, verb: Verb, rest: &'a [u8]) -> Result<Call<'a, Kind<'a>>, Stray> {
    match verb {
        Verb::List => listing(heap, rest),
        _ => tableless(verb, rest).ok_or(Stray::NotOfForm(verb)),
    }
}

// The call of a verb that brings no table with it, or none where the verb wants something else behind it.
fn tableless<'a>(verb: Verb, rest: &'a [u8]) -> Option<Call<'a, Kind<'a>>> {
    match verb {
        Verb::Read | Verb::Written => Some(Call::Read(Reading::Written, rest)),
        Verb::Sounding => Some(Call::Read(Reading::Sounding, rest)),
        Verb::Bare => Some(Call::Read(Reading::Bare, rest)),
        Verb::Take => Some(Call::Take(node(rest)?)),
        Verb::Group => Some(Call::Group(read_number(rest)?)),
        Verb::Start => Some(Call::Start(read_number(rest)?)),
        Verb::Close if rest.is_empty() => Some(Call::Close),
        Verb::Reopen if rest.is_empty() => Some(Call::Reopen),
        Verb::Words if rest.is_empty() => Some(Call::Words),
        Verb::Tops if rest.is_empty() => Some(Call::Tops),
        Verb::Repeats if rest.is_empty() => Some(Call::Repeats),
        _ => None,
    }
}

// The node of a kind and what makes it one: a rank, a length, or a syllable in quotes.
fn node<'a>(text: &'a [u8]) -> Option<Kind<'a>> {
    let (kind, rest) = cut(text);
    match kind {
        b"bare" => Some(Either::First(bare(rest)?)),
        b"rest" => Some(Either::Second(Either::First(silence(rest)?))),
        b"syllable" => Some(Either::Second(Either::Second(syllable(rest)?))),
        _ => None,
    }
}

fn bare(typed: &[u8]) -> Option<Node<Bare>> {
    let rank = u8::try_from(read_number(typed)?).ok()?;
    Some(Node { label: Bare, rank })
}

fn silence(typed: &[u8]) -> Option<Node<RestLabel>> {
    let length = u8::try_from(read_number(typed)?).ok()?;
    let label = RestLabel::new(length)?;
    Some(Node { label, rank: 0 })
}

fn syllable<'a>(typed: &'a [u8]) -> Option<Node<SyllableLabel<'a>>> {
    let Ok(Token::Syllable(bytes)) = read_token(None, typed) else {
        return None;
    };
    let label = SyllableLabel::new(bytes)?;
    Some(Node { label, rank: 0 })
}

// A listing with a table for its ends: as long as any book needs, or of so many places.
fn listing<'a>(heap: Global, rest: &'a [u8]) -> Result<Call<'a, Kind<'a>>, Stray> {
    let (repeat, places) = cut(rest);
    let k = read_number(repeat).ok_or(Stray::NotOfForm(Verb::List))?;
    let places = places_of(places).ok_or(Stray::NotOfForm(Verb::List))?;
    Ok(Call::List(k, vec![in heap; 0; places]?))
}

// No repeat has more ends than a book has words.
fn places_of(typed: &[u8]) -> Option<usize> {
    if typed.is_empty() {
        return Some(MOST_WORDS);
    }
    let places = read_number(typed)? as usize;
    (places <= MOST_WORDS).then_some(places)
}

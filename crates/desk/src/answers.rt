// Answers in words.
use crate::verbs::Verb;
use book::{Answer, Listed};
use names::Refusal;
use std::fmt::{self, Display};

// What is answered to a call of the verb.
#[derive(Clone, Copy)]
pub struct Reply<'a> {
    pub verb: Verb,
    pub answer: &'a Answer,
}

impl<'a> fmt::Display for Reply<'a> {
    fn fmt<W: fmt::Write>(&self, f: &mut fmt::Formatter<W>) -> fmt::Result {
        match self.answer {
            Answer::Taken(Ok((group, start))) => write!(f, "group {group}, starts at {start}"),
            Answer::Took(Ok(words)) => took(f, *words),
            Answer::Took(Err(fault)) => fault.fmt(f),
            Answer::Done => f.write_str(done(self.verb)),
            Answer::Counted(count) => how_many(f, self.verb, *count),
            Answer::Told(Ok(number)) => told(f, self.verb, *number),
            Answer::Listed(Ok(listed), table) => list(f, *listed, table.as_slice()),
            Answer::Taken(Err(refusal))
            | Answer::Told(Err(refusal))
            | Answer::Listed(Err(refusal), _) => refused(f, *refusal),
            Answer::NotAllowed => f.write_str(not_allowed(self.verb)),
        }
    }
}

// A count with what is counted, in the singular where it is one.
#[derive(Clone, Copy)]
struct Counted(u32, &'static str);

impl fmt::Display for Counted {
    fn fmt<W: fmt::Write>(&self, f: &mut fmt::Formatter<W>) -> fmt::Result {
        let count = self.0;
        let noun = self.1;
        let ending = if count == 1 { "" } else { "s" };
        write!(f, "{count} {noun}{ending}")
    }
}

fn took<W: fmt::Write>(f: &mut fmt::Formatter<W>, words: u32) -> fmt::Result {
    let words = Counted(words, "word");
    write!(f, "took {words}")
}

fn told<W: fmt::Write>(f: &mut fmt::Formatter<W>, verb: Verb, number: u32) -> fmt::Result {
    match verb {
        Verb::Start => write!(f, "starts at {number}"),
        _ => write!(f, "group {number}"),
    }
}

fn how_many<W: fmt::Write>(f: &mut fmt::Formatter<W>, verb: Verb, count: u32) -> fmt::Result {
    match verb {
        Verb::Tops => Counted(count, "top passage").fmt(f),
        Verb::Repeats => Counted(count, "repeat").fmt(f),
        _ => Counted(count, "word").fmt(f),
    }
}

fn done(verb: Verb) -> &'static str {
    match verb {
        Verb::Close => "closed",
        Verb::Reopen => "open again",
        _ => "done",
    }
}

fn list<W: fmt::Write>(f: &mut fmt::Formatter<W>, listed: Listed, table: &[u32]) -> fmt::Result {
    let group = listed.group;
    let size = listed.size;
    let count = Counted(listed.count, "end");
    write!(f, "group {group}, size {size}, {count}:")?;
    for end in table.iter().take(listed.count as usize) {
        write!(f, " {end}")?;
    }
    Ok(())
}

fn refused<W: fmt::Write>(f: &mut fmt::Formatter<W>, refusal: Refusal) -> fmt::Result {
    let number = refusal.number();
    write!(f, "refused {number}: {refusal}")
}

// Why the book does not allow a call of the verb as it stands, and what to do.
fn not_allowed(verb: Verb) -> &'static str {
    match verb {
        Verb::Close => "not allowed: the book is closed already",
        Verb::Reopen => "not allowed: the book is open already",
        Verb::Repeats | Verb::List => "not allowed: the book is open; close it first",
        _ => "not allowed: the book is closed; reopen it first",
    }
}

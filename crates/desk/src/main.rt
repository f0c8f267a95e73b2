// An editor's desk: performs typed calls on one book, and prints what each is answered.
#![tactic(auto)]

mod answers;
mod calls;
mod options;
mod verbs;

use crate::answers::Reply;
use crate::calls::{Kind, read_call};
use crate::options::{HELP, Options, parse};
use crate::verbs::Verb;
use anyhow::anyhow;
use book::{Answer, Call, perform_all};
use registers::{Buckets, Slot};
use std::alloc::{AllocError, Global};
use std::io::{BufRead, BufReader};
use std::process::ExitCode;
use std::{env, io};

const BUCKETS: usize = 32_768;

// A call as it was typed.
#[derive(Clone, Copy)]
struct Entered<'a> {
    line: usize,
    text: &'a str,
    verb: Verb,
}

// The calls of a session, each as it was typed and as it is performed, and whether a line was none, which is named at once.
// The two rows stand apart, since the calls go into the performing, and what was typed stays to be printed.
#[derive(Drop)]
struct Session<'a> {
    typed: Vec<Entered<'a>>,
    calls: Vec<Call<'a, Kind<'a>>>,
    stray: bool,
}

// As in `rename`: no library lies beneath both programs alone.
fn main(rt: HostRuntime) -> anyhow::Result<ExitCode> {
    match run(&rt) {
        Ok(()) => Ok(ExitCode::SUCCESS),
        Err(error) => {
            eprintln!(rt; "{error}")?;
            Ok(ExitCode::FAILURE)
        }
    }
}

fn run(rt: &HostRuntime) -> anyhow::Result<()> {
    let mut words = env::args(rt)?;
    let _program = words.next();
    let options = parse(words)?;
    if options.help {
        rt.println(HELP)?;
        return Ok(());
    }
    hold(rt, options)
}

// Holds a session: reads its calls, performs them all, and prints what they are answered.
fn hold(rt: &HostRuntime, options: Options) -> anyhow::Result<()> {
    let lines = read_lines(rt)?;
    let session = read_session(rt, &lines)?;
    let Session {
        typed,
        calls,
        stray,
    } = session;
    let answers = perform(rt.alloc(), options.capacity, calls)?;
    print_answers(rt, options.plain, &typed, &answers)?;
    if stray {
        return Err(anyhow!("lines that are no calls were passed over"));
    }
    Ok(())
}

fn read_lines(rt: &HostRuntime) -> io::Result<Vec<String>> {
    BufReader::new(rt.alloc(), rt.stdin())?
        .lines(rt.alloc())
        .try_collect(rt.alloc())
}

// The calls of the lines. A line that is none is named at once, and the others count all the same.
fn read_session<'a>(rt: &HostRuntime, lines: &'a [String]) -> io::Result<Session<'a>> {
    let mut session = Session::new(rt.alloc());
    for (number, line) in (1usize..).zip(lines.iter()) {
        let text = line.as_str().trim_ascii();
        if !text.is_empty() && !text.starts_with("#") {
            session.enter(rt, number, text)?;
        }
    }
    Ok(session)
}

impl<'a> Session<'a> {
    fn new(heap: Global) -> Session<'a> {
        Session {
            typed: Vec::new(heap),
            calls: Vec::new(heap),
            stray: false,
        }
    }

    fn enter(&mut self, rt: &HostRuntime, line: usize, text: &'a str) -> io::Result<()> {
        match read_call(rt.alloc(), text.as_bytes()) {
            Ok((verb, call)) => {
                self.typed.push(Entered { line, text, verb })?;
                self.calls.push(call)?;
            }
            Err(stray) => {
                self.stray = true;
                eprintln!(rt; "line {line}: not a call: {text}{stray}")?;
            }
        }
        Ok(())
    }
}

fn perform(
    heap: Global,
    capacity: usize,
    calls: Vec<Call<Kind>>,
) -> Result<Vec<Answer>, AllocError> {
    let register = Buckets::over(
        vec![in heap; Slot::default(); capacity]?,
        vec![in heap; 0; BUCKETS]?,
    );
    let (_register, answers) = perform_all(heap, register, calls).map_err(|_register| AllocError)?;
    Ok(answers)
}

fn print_answers(
    rt: &HostRuntime,
    plain: bool,
    typed: &[Entered],
    answers: &[Answer],
) -> io::Result<()> {
    for (call, answer) in typed.iter().zip(answers.iter()) {
        if !plain {
            print_call(rt, call)?;
        }
        print_answer(rt, call.verb, answer)?;
    }
    Ok(())
}

// The call after the number of its line. Its answer is set in to stand under it.
fn print_call(rt: &HostRuntime, call: &Entered) -> io::Result<()> {
    let line = call.line;
    let text = call.text;
    print!(rt; "{line:>4}  {text}\n      ")
}

fn print_answer(rt: &HostRuntime, verb: Verb, answer: &Answer) -> io::Result<()> {
    rt.println(Reply { verb, answer })
}

// Rewrites a typed text in the note names of one naming.
#![tactic(auto)]

mod options;

use crate::options::{HELP, Options, parse};
use names::Naming;
use renaming::{Renamed, Tally, rename};
use std::alloc::Global;
use std::io::{Read, Write};
use std::process::ExitCode;
use std::{env, fs, io};

// A byte more than a text may have, so that a longer one is seen to be too long.
const MOST: u64 = 65_537;

fn main(rt: HostRuntime) -> anyhow::Result<ExitCode> {
    match run(&rt) {
        Ok(()) => Ok(ExitCode::SUCCESS),
        Err(error) => {
            eprintln!(rt; "{error}")?;
            Ok(ExitCode::FAILURE)
        }
    }
}

fn run(rt: &HostRuntime) -> anyhow::Result<()> {
    let mut words = env::args(rt)?;
    let _program = words.next();
    let options = parse(words)?;
    if options.help {
        rt.println(HELP)?;
        return Ok(());
    }
    let text = read_text(rt, &options)?;
    let renamed = rename(rt.alloc(), &text, options.to)?;
    tell(rt, &options, text.len(), &renamed)
}

fn read_text(rt: &HostRuntime, options: &Options) -> io::Result<Vec<u8>> {
    match &options.file {
        Some(name) => { read_most(rt.alloc(), fs::open(rt, name.as_str())?) }
        None => { read_most(rt.alloc(), rt.stdin()) }
    }
}

// The bytes up to the end, or one more than a text may have.
fn read_most<R: Read + Drop>(heap: Global, from: R) -> io::Result<Vec<u8>> {
    let mut text = Vec::new(heap);
    from.take(MOST).read_to_end(&mut text)?;
    Ok(text)
}

fn tell(
    rt: &HostRuntime,
    options: &Options,
    bytes: usize,
    renamed: &Renamed,
) -> anyhow::Result<()> {
    if !options.plain {
        tell_steps(rt, options, bytes, renamed)?;
    }
    rt.stdout().write_all(&renamed.text)?;
    Ok(())
}

fn tell_steps(
    rt: &HostRuntime,
    options: &Options,
    bytes: usize,
    renamed: &Renamed,
) -> io::Result<()> {
    let Tally {
        tokens,
        notes,
        syllables,
        rests,
        frames,
        changed,
    } = renamed.tally;
    let naming = match options.to {
        Naming::English => "English",
        Naming::German => "German",
    };
    match &options.file {
        Some(name) => println!(rt; "Read {bytes} bytes of {name}: {tokens} tokens.")?,
        None => println!(rt; "Read {bytes} bytes of standard input: {tokens} tokens.")?,
    }
    println!(rt; "Saw notes: {notes}, syllables: {syllables}, rests: {rests}, frames: {frames}.")?;
    println!(rt; "Wrote the notes in {naming} names: {changed} of {notes} changed their name.")?;
    println!(rt; "The text:")
}

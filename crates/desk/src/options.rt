// What the command line asks for.
use registers::MOST_PAIRS;
use std::env::Args;
use std::error::Error;
use std::fmt;
use typed::read_number;

pub const HELP: &str = "Usage: desk [--plain] [--capacity N] < CALLS
Performs calls on one book, in turn, and prints what each is answered.
Each line of standard input is a call:
  read TEXT            take the words of a text, notes as they are written;
                       `written TEXT` is the same
  sounding TEXT        take them with notes as they sound
  bare TEXT            take them without labels, only with their ranks
  take bare RANK       take one bare node over the last RANK top passages
  take rest LENGTH     take one rest
  take syllable \"la\"   take one syllable
  words, tops          how many words, how many top passages
  group N, start N     group number and start of the passage that ends at word N
  close, reopen        close the book to find its repeats; go on taking words
  repeats, list K      how many repeats a closed book has; repeat K with its ends
  list K PLACES        the same with a table of so many places for the ends
Words, repeats and places count from 0. Empty lines and lines that begin with #
are passed over. A refusal is an answer too. A line that is no call is named on
standard error, the others are performed all the same, and the status is 1.
  --plain         print the answers alone, one line each
  --capacity N    places of the register under the book (32768 if nothing is said)
  --help          say this";

// What was asked for. Each option may stand beside the others in any order, `--help` too.
#[derive(Clone, Copy)]
pub struct Options {
    pub plain: bool,
    pub help: bool,
    pub capacity: usize,
}

// Why a command line is not understood.
#[derive(Clone, Copy, Debug)]
pub enum Slip {
    NoSuchOption,
    NoCapacity,
}

impl fmt::Display for Slip {
    fn fmt<W: fmt::Write>(&self, f: &mut fmt::Formatter<W>) -> fmt::Result {
        f.write_str(match self {
            Slip::NoSuchOption => "there is no such option; --help says which there are",
            Slip::NoCapacity => "--capacity wants a number up to 32768 behind it",
        })
    }
}

impl Error for Slip {}

// What is done where nothing is said.
impl Default for Options {
    fn default() -> Options {
        Options {
            plain: false,
            help: false,
            capacity: MOST_PAIRS,
        }
    }
}

// The options of the words behind the program's name.
pub fn parse(mut words: Args) -> Result<Options, Slip> {
    let mut options = Options::default();
    while let Some(word) = words.next() {
        match word.as_str() {
            "--plain" => options.plain = true,
            "--help" => options.help = true,
            "--capacity" => options.capacity = capacity(words.next())?,
            _ => return Err(Slip::NoSuchOption),
        }
    }
    Ok(options)
}

// The capacity that the word behind `--capacity` says.
fn capacity(word: Option<String>) -> Result<usize, Slip> {
    let word = word.ok_or(Slip::NoCapacity)?;
    let number = read_number(word.as_bytes()).ok_or(Slip::NoCapacity)? as usize;
    (number <= MOST_PAIRS)
        .then_some(number)
        .ok_or(Slip::NoCapacity)
}

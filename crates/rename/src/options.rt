// What the command line asks for.
use names::Naming;
use std::env::Args;
use std::error::Error;
use std::fmt;

pub const HELP: &str = "Usage: rename [--to german|english] [--plain] [FILE]
Rewrites a typed text in the note names of one naming.
The text is FILE, or standard input where no file is named.
  --to german|english  the naming to write in (english if nothing is said)
  --plain              write the new text alone, for pipes and files
  --help               say this
Without --plain it first says in plain words what it read and what it changed.
The new text is the naming word, each token after one space, and a line end.
What cannot be read is refused in one line, such as `refused 22 byte 7`, with
the reason in words, on standard error; nothing is rewritten then, and the
status is 1.";

// What was asked for. Each option may stand beside the others in any order, `--help` too.
#[derive(Drop)]
pub struct Options {
    pub to: Naming,
    pub plain: bool,
    pub help: bool,
    pub file: Option<String>,
}

// What is done where nothing is said.
impl Default for Options {
    fn default() -> Options {
        Options {
            to: Naming::English,
            plain: false,
            help: false,
            file: None,
        }
    }
}

// Why a command line is not understood.
#[derive(Clone, Copy, Debug)]
pub enum Slip {
    NoSuchOption,
    NoNaming,
    TwoFiles,
}

impl fmt::Display for Slip {
    fn fmt<W: fmt::Write>(&self, f: &mut fmt::Formatter<W>) -> fmt::Result {
        f.write_str(match self {
            Slip::NoSuchOption => "there is no such option; --help says which there are",
            Slip::NoNaming => "--to wants german or english behind it",
            Slip::TwoFiles => "one file at a time",
        })
    }
}

impl Error for Slip {}

// The options of the words behind the program's name.
pub fn parse(mut words: Args) -> Result<Options, Slip> {
    let mut options = Options::default();
    while let Some(word) = words.next() {
        match word.as_str() {
            "--to" => options.to = naming(words.next())?,
            "--plain" => options.plain = true,
            "--help" => options.help = true,
            other if other.starts_with("--") => return Err(Slip::NoSuchOption),
            _ if options.file.is_some() => return Err(Slip::TwoFiles),
            _ => options.file = Some(word),
        }
    }
    Ok(options)
}

// The naming that the word behind `--to` is.
fn naming(word: Option<String>) -> Result<Naming, Slip> {
    let word = word.ok_or(Slip::NoNaming)?;
    Naming::named(word.as_bytes()).ok_or(Slip::NoNaming)
}

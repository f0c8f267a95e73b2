// Everything the project refuses, in one list. A refusal's number and layer are part of the format.
ghost use Rattle.std.specs.Prelude.{◌≡◌, true};
ghost use Rattle.names.specs.Refusals.{number, layer, layer_number, same_refusal};
ghost use Rattle.std.specs.Cmp.Rules.{comparing};
ghost use Rattle.std.proofs.Common.{rules};

use std::error::Error;
use std::fmt;

#[derive(Clone, Copy, Debug)]
pub enum Refusal {
    TextTooLong,
    TokenTooLong,
    NotOfForm,
    NoNaming,
    OutOfRange,
    UnknownName,
    BadOctaveOrLength,
    RankAboveTops,
    BookFull,
    RegisterFull,
    NoSuchPosition,
    NoSuchRepeat,
    TableTooShort,
    NotAScore,
    NoSuchVoice,
    NeverTyped,
    NameBufferTooShort,
    BufferTooShort,
}

// The part of the project that refuses.
#[derive(Clone, Copy, PartialEq, Eq)]
pub enum Layer {
    Text,
    Name,
    Book,
    Sheet,
}

// A refusal and where it was met: the byte where its token begins, or 0 where no token is at fault. As an `Option` of a byte it
// would leave everyone who prints it to say that 0.
#[derive(Clone, Copy, PartialEq, Eq, Debug)]
pub struct Fault {
    pub refusal: Refusal,
    pub byte: usize,
}

// Written out: its clauses say that it tells the same refusals from different ones, and a derive states laws but no clauses.
impl PartialEq for Refusal {
    ghost eq = { same_refusal };

    ghost laws = { Prim.search (comparing, rules) };

    fn eq(&self, other: &Refusal) -> bool
        ensures value { result ≡ same_refusal self.now other.now }
        ensures same { (result ≡ true → self.now ≡ other.now) × (self.now ≡ other.now → result ≡ true) }
    {
        (*self as u8) == (*other as u8)
    }
}

impl Eq for Refusal {
    ghost laws = { Prim.search (comparing, rules) };
}

// The number and the layer of each refusal, in the order of the list. The numbers are the format's own: one stands for two.
static LISTED: [(u8, Layer); 18] = [
    (10, Layer::Text),
    (11, Layer::Text),
    (12, Layer::Text),
    (13, Layer::Text),
    (21, Layer::Name),
    (22, Layer::Name),
    (23, Layer::Text),
    (31, Layer::Book),
    (32, Layer::Book),
    (33, Layer::Book),
    (41, Layer::Book),
    (42, Layer::Book),
    (43, Layer::Book),
    (51, Layer::Sheet),
    (52, Layer::Sheet),
    (53, Layer::Sheet),
    (54, Layer::Name),
    (54, Layer::Sheet),
];

impl Refusal {
    pub fn number(self) -> u8
        ensures { result ≡ number self }
    {
        LISTED[self as usize].0
    }

    pub fn layer(self) -> Layer
        ensures { result ≡ layer self }
    {
        LISTED[self as usize].1
    }
}

impl From<Layer> for u8 {
    ghost from_gives = { λ layer n. n ≡ layer_number layer };

    fn from(layer: Layer) -> u8 {
        layer as u8
    }
}

impl Fault {
    pub fn number(self) -> u8
        ensures { result ≡ number self.refusal }
    {
        self.refusal.number()
    }

    pub fn layer(self) -> Layer
        ensures { result ≡ layer self.refusal }
    {
        self.refusal.layer()
    }
}

// The reason in words, for people.
impl fmt::Display for Refusal {
    fn fmt<W: fmt::Write>(&self, f: &mut fmt::Formatter<W>) -> fmt::Result {
        f.write_str(match self {
            Refusal::TextTooLong => "the text is longer than 65536 bytes",
            Refusal::TokenTooLong => "the token is longer than 64 bytes",
            Refusal::NotOfForm => "this is no frame such as bar:2 and no syllable such as \"la\"",
            Refusal::NoNaming => "a note stands before the first word german or english",
            Refusal::OutOfRange => "there is no such naming, step or alteration",
            Refusal::UnknownName => "the note's name is not in the list of its naming",
            Refusal::BadOctaveOrLength =>
                "the octave is not one digit or the length is not /1 to /64",
            Refusal::RankAboveTops => "the word asks for more passages than are open",
            Refusal::BookFull => "the book holds 4096 words already",
            Refusal::RegisterFull => "the register has too few free places for the word",
            Refusal::NoSuchPosition => "no word stands at that position",
            Refusal::NoSuchRepeat => "there is no repeat of that number",
            Refusal::TableTooShort => "the table is too short for the ends of the repeat",
            Refusal::NotAScore => "the book does not hold exactly one score",
            Refusal::NoSuchVoice => "the score has no such voice",
            Refusal::NeverTyped => "a word to be printed is none that can be typed",
            Refusal::NameBufferTooShort => "the buffer is too short for the name",
            Refusal::BufferTooShort => "the buffer is too short",
        })
    }
}

// As it is printed, for people: the number, the byte and the reason.
impl fmt::Display for Fault {
    fn fmt<W: fmt::Write>(&self, f: &mut fmt::Formatter<W>) -> fmt::Result {
        let number = self.number();
        let byte = self.byte;
        let refusal = self.refusal;
        write!(f, "refused {number} byte {byte}: {refusal}")
    }
}

impl Error for Refusal {}

impl Error for Fault {}

// The keywords of frames. Those from soprano on are voices.
ghost use Rattle.std.specs.Prelude.{◌≡◌};
ghost use Rattle.std.specs.Option.{ok_or};
ghost use Rattle.names.specs.Keywords.{keyword_number, keyword_numbered, keyword_word, keyword_named, unnumbered};

use std::error::Error;
use std::fmt;

#[derive(Clone, Copy, PartialEq, Eq)]
pub enum Keyword {
    Bar,
    Verse,
    Chord,
    Sung,
    Score,
    Soprano,
    Alto1,
    Alto2,
    Tenor,
    Bass1,
    Bass2,
    Organ,
}

// The keywords, by number. An enum has no list of its own values.
static KEYWORDS: [Keyword; 12] = [
    Keyword::Bar,
    Keyword::Verse,
    Keyword::Chord,
    Keyword::Sung,
    Keyword::Score,
    Keyword::Soprano,
    Keyword::Alto1,
    Keyword::Alto2,
    Keyword::Tenor,
    Keyword::Bass1,
    Keyword::Bass2,
    Keyword::Organ,
];

// A number that no keyword has.
#[derive(Clone, Copy, PartialEq, Eq, Debug)]
pub struct NoSuchKeyword {
    pub number: u8,
}

impl From<Keyword> for u8 {
    ghost from_gives = { λ keyword n. n ≡ keyword_number keyword };

    fn from(keyword: Keyword) -> u8 {
        keyword as u8
    }
}

impl TryFrom<u8> for Keyword {
    type Error = NoSuchKeyword;

    ghost try_from_gives = { λ n r. r ≡ ok_or (keyword_numbered n) (unnumbered n) };

    fn try_from(number: u8) -> Result<Keyword, NoSuchKeyword> {
        let listed = KEYWORDS.get(usize::from(number)).copied();
        listed.ok_or(NoSuchKeyword { number })
    }
}

impl fmt::Display for NoSuchKeyword {
    fn fmt<W: fmt::Write>(&self, f: &mut fmt::Formatter<W>) -> fmt::Result {
        let number = self.number;
        write!(f, "no keyword has the number {number}")
    }
}

impl Error for NoSuchKeyword {}

impl Keyword {
    pub fn word(self) -> &'static [u8]
        ensures { result.now ≡ keyword_word self }
    {
        match self {
            Keyword::Bar => b"bar",
            Keyword::Verse => b"verse",
            Keyword::Chord => b"chord",
            Keyword::Sung => b"sung",
            Keyword::Score => b"score",
            Keyword::Soprano => b"soprano",
            Keyword::Alto1 => b"alto1",
            Keyword::Alto2 => b"alto2",
            Keyword::Tenor => b"tenor",
            Keyword::Bass1 => b"bass1",
            Keyword::Bass2 => b"bass2",
            Keyword::Organ => b"organ",
        }
    }

    // The keyword whose word the bytes are.
    #[tactic(auto, unfolding(crate::specs::Keywords::keyword_named))]
    pub fn named(word: &[u8]) -> Option<Keyword>
        ensures { result ≡ keyword_named word.now }
    {
        match word {
            b"bar" => Some(Keyword::Bar),
            b"verse" => Some(Keyword::Verse),
            b"chord" => Some(Keyword::Chord),
            b"sung" => Some(Keyword::Sung),
            b"score" => Some(Keyword::Score),
            b"soprano" => Some(Keyword::Soprano),
            b"alto1" => Some(Keyword::Alto1),
            b"alto2" => Some(Keyword::Alto2),
            b"tenor" => Some(Keyword::Tenor),
            b"bass1" => Some(Keyword::Bass1),
            b"bass2" => Some(Keyword::Bass2),
            b"organ" => Some(Keyword::Organ),
            _ => None,
        }
    }
}

// The first words of calls.
ghost use Rattle.std.specs.Prelude.{◌≡◌};
ghost use Rattle.desk.specs.Verbs.{verb_word, verb_named};

// What a call asks of the book.
#[derive(Clone, Copy)]
pub enum Verb {
    Read,
    Written,
    Sounding,
    Bare,
    Take,
    Close,
    Reopen,
    Words,
    Tops,
    Group,
    Start,
    Repeats,
    List,
}

// An enum has no list of its own values.
static VERBS: [Verb; 13] = [
    Verb::Read,
    Verb::Written,
    Verb::Sounding,
    Verb::Bare,
    Verb::Take,
    Verb::Close,
    Verb::Reopen,
    Verb::Words,
    Verb::Tops,
    Verb::Group,
    Verb::Start,
    Verb::Repeats,
    Verb::List,
];

impl Verb {
    // The word that begins its calls.
    fn word(self) -> &'static [u8]
        ensures { result.now ≡ verb_word self }
    {
        match self {
            Verb::Read => b"read",
            Verb::Written => b"written",
            Verb::Sounding => b"sounding",
            Verb::Bare => b"bare",
            Verb::Take => b"take",
            Verb::Close => b"close",
            Verb::Reopen => b"reopen",
            Verb::Words => b"words",
            Verb::Tops => b"tops",
            Verb::Group => b"group",
            Verb::Start => b"start",
            Verb::Repeats => b"repeats",
            Verb::List => b"list",
        }
    }

    // The verb that a word is.
    #[tactic(auto, unfolding(crate::specs::Verbs::verb_named))]
    pub fn named(word: &[u8]) -> Option<Verb>
        ensures { result ≡ verb_named word.now }
    {
        VERBS.iter().copied().find(|verb| verb.word() == word)
    }

    // How a call with this verb is typed.
    pub fn form(self) -> &'static str {
        match self {
            Verb::Read => "read TEXT",
            Verb::Written => "written TEXT",
            Verb::Sounding => "sounding TEXT",
            Verb::Bare => "bare TEXT",
            Verb::Take => "take bare RANK, take rest LENGTH or take syllable \"la\"",
            Verb::Close => "close, and nothing behind it",
            Verb::Reopen => "reopen, and nothing behind it",
            Verb::Words => "words, and nothing behind it",
            Verb::Tops => "tops, and nothing behind it",
            Verb::Group => "group POSITION",
            Verb::Start => "start POSITION",
            Verb::Repeats => "repeats, and nothing behind it",
            Verb::List => "list REPEAT or list REPEAT PLACES",
        }
    }
}

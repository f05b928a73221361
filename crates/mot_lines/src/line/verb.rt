//! The first words of lines.
ghost use Rattle.std.specs.Prelude.{◌≡◌};
ghost use Rattle.mot_lines.specs.Verb.{verb_of, verb_word};

/// What a line is to do, by its first word.
#[derive(Clone, Copy, PartialEq, Eq)]
pub enum Verb {
    /// `put NAME TYPE SUBTYPE MIME HEX`: a new object.
    Put,
    /// `replace` with the same words: another body of an object.
    Replace,
    /// `withdraw NAME`.
    Withdraw,
    /// `period N`: the period of the carousel.
    Period,
    /// `list`: the content of the carousel.
    List,
    /// `next N`: so many packets.
    Next,
    /// `turn`: the packets up to the end of a turn.
    Turn,
    /// `raw TYPE TID HEX`: the packets of a group.
    Raw,
}

/// All of them.
const VERBS: [Verb; 8] = [
    Verb::Put,
    Verb::Replace,
    Verb::Withdraw,
    Verb::Period,
    Verb::List,
    Verb::Next,
    Verb::Turn,
    Verb::Raw,
];

impl Verb {
    /// The one that a first word is; `None` if it is no command.
    pub fn of(word: &[u8]) -> Option<Verb>
        ensures { result ≡ verb_of word.now }
    {
        for verb in &VERBS {
            if word == verb.word().as_bytes() {
                return Some(*verb);
            }
        }
        None
    }

    /// Its word.
    pub fn word(self) -> &'static str
        ensures { result.now ≡ verb_word self }
    {
        match self {
            Verb::Put => "put",
            Verb::Replace => "replace",
            Verb::Withdraw => "withdraw",
            Verb::Period => "period",
            Verb::List => "list",
            Verb::Next => "next",
            Verb::Turn => "turn",
            Verb::Raw => "raw",
        }
    }

    /// How many words its line has, the first among them.
    pub fn word_count(self) -> u64 {
        match self {
            Verb::Put | Verb::Replace => 6,
            Verb::Raw => 4,
            Verb::Withdraw | Verb::Period | Verb::Next => 2,
            Verb::List | Verb::Turn => 1,
        }
    }

    /// Whether the second word says what the line is about.
    pub fn has_subject(self) -> bool {
        match self {
            Verb::Put | Verb::Replace | Verb::Withdraw | Verb::Period => true,
            _ => false,
        }
    }
}

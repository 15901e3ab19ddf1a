ghost use Rattle.std.specs.Prelude.{◌≡◌};
ghost use Rattle.words.specs.Scan.{word_number, word_place, mark_code};

/// The marks, each a single character.
#[derive(Clone, Copy, Debug, PartialEq, Eq)]
pub enum Mark {
    Open,
    Close,
    Semicolon,
    Comma,
    Dot,
    Colon,
    Bar,
    Bang,
    Equals,
}

impl From<Mark> for char {
    ghost from_gives = { λ m c. c ≡ mark_code m };

    fn from(mark: Mark) -> char {
        match mark {
            Mark::Open => '(',
            Mark::Close => ')',
            Mark::Semicolon => ';',
            Mark::Comma => ',',
            Mark::Dot => '.',
            Mark::Colon => ':',
            Mark::Bar => '|',
            Mark::Bang => '!',
            Mark::Equals => '=',
        }
    }
}

/// What stands at a place of the text.
#[derive(Clone, Copy, Debug, Default, PartialEq, Eq)]
pub enum Token {
    /// the end of the text
    #[default]
    End,
    /// a word: a letter, then letters or digits
    Word,
    /// a number, with its value
    Number(u16),
    /// a mark
    Single(Mark),
}

/// A token and the bytes that it takes, from `start` up to `end`. By default no token: the end of
/// an empty text.
#[derive(Clone, Copy, Debug, Default, PartialEq, Eq)]
pub struct Span {
    pub token: Token,
    pub start: usize,
    pub end: usize,
}

/// Why there is no token, with the place where the fault begins.
#[derive(Clone, Copy, Debug, PartialEq, Eq)]
pub enum WordFault {
    /// a byte that begins no word, number or mark
    Byte(usize),
    /// a word over 32 bytes, or a number over 65,535
    Long(usize),
}

impl WordFault {
    /// The number by which the fault is reported.
    // Kept: a match, since `as` takes no enum whose cases carry values.
    pub fn number(self) -> u16
        ensures { result ≡ word_number self }
    {
        match self {
            WordFault::Byte(_) => 11,
            WordFault::Long(_) => 12,
        }
    }

    /// Where the fault begins.
    pub fn place(self) -> usize
        ensures { result ≡ word_place self }
    {
        match self {
            WordFault::Byte(place) | WordFault::Long(place) => place,
        }
    }
}

ghost use Rattle.std.specs.Prelude.{◌≡◌};
ghost use Rattle.walkthrough.specs.Words.{process_word, type_word};

use rows::{ProcessKind, TypeKind, TypeRow};
use std::fmt;

// The word of a type's kind.
// Kept: functions to words, here and below. A `Display` would need a type around another crate's kind
// for each, and its `fmt` would hold the same match.
fn word_of_type(kind: TypeKind) -> &'static str
    ensures { result.now ≡ type_word kind }
{
    match kind {
        TypeKind::Level => "level",
        TypeKind::Chan => "chan",
        TypeKind::Sym => "sym",
        TypeKind::Dec => "dec",
        TypeKind::Enc => "enc",
        TypeKind::Sig => "sig",
        TypeKind::Ver => "ver",
    }
}

// The word of a row's kind.
pub(crate) fn word_of_row(kind: ProcessKind) -> &'static str
    ensures { result.now ≡ process_word kind }
{
    match kind {
        ProcessKind::Stop => "stop",
        ProcessKind::Out => "out",
        ProcessKind::In => "in",
        ProcessKind::New => "new",
        ProcessKind::Both => "both",
        ProcessKind::Again => "again",
        ProcessKind::If => "if",
        ProcessKind::Sopen => "sopen",
        ProcessKind::Aopen => "aopen",
        ProcessKind::Verify => "verify",
    }
}

// A type in words. Payload types are named by their rows.
// Kept: a type of its own, since the wording is this program's, and `rows` prints nothing.
#[derive(Clone, Copy)]
pub(crate) struct TypeWords(pub(crate) TypeRow);

impl fmt::Display for TypeWords {
    fn fmt<W: fmt::Write>(&self, f: &mut fmt::Formatter<W>) -> fmt::Result {
        let kind = word_of_type(self.0.kind);
        let level = self.0.level;
        let [a, b, c, d] = self.0.payload;
        match self.0.count {
            0 => write!(f, "{kind} {level}"),
            1 => write!(f, "{kind} {level} ({a})"),
            2 => write!(f, "{kind} {level} ({a}, {b})"),
            3 => write!(f, "{kind} {level} ({a}, {b}, {c})"),
            _ => write!(f, "{kind} {level} ({a}, {b}, {c}, {d})"),
        }
    }
}

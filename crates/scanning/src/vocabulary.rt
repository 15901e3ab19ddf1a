ghost use Rattle.std.specs.Prelude.{◌≡◌};
ghost use Rattle.scanning.specs.Vocabulary.{type_kind, process_word, particle, reserved, head, first};

use crate::spelling::spell;
use rows::{ProcessKind, TermKind, TypeKind};
use words::{Mark, Span, Token};

/// What the first word of a term says.
#[derive(Clone, Copy, Debug, PartialEq, Eq)]
pub enum Head {
    /// a name
    Name,
    /// the public key of a key: ek or vk
    KeyOf(TermKind),
    /// parts under a key: senc, aenc or sign
    Under(TermKind),
}

/// The kind of type that a word stands for.
pub fn type_kind(w: &[u8]) -> Option<TypeKind>
    ensures { result ≡ type_kind w.now }
{
    match w {
        b"level" => Some(TypeKind::Level),
        b"chan" => Some(TypeKind::Chan),
        b"sym" => Some(TypeKind::Sym),
        b"dec" => Some(TypeKind::Dec),
        b"enc" => Some(TypeKind::Enc),
        b"sig" => Some(TypeKind::Sig),
        b"ver" => Some(TypeKind::Ver),
        _ => None,
    }
}

// What process a word begins.
fn process_word(w: &[u8]) -> Option<ProcessKind>
    ensures { result ≡ process_word w.now }
{
    match w {
        b"stop" => Some(ProcessKind::Stop),
        b"new" => Some(ProcessKind::New),
        b"out" => Some(ProcessKind::Out),
        b"in" => Some(ProcessKind::In),
        b"if" => Some(ProcessKind::If),
        b"sopen" => Some(ProcessKind::Sopen),
        b"aopen" => Some(ProcessKind::Aopen),
        b"verify" => Some(ProcessKind::Verify),
        _ => None,
    }
}

// The grammar's words that begin neither a type, a term nor a process.
fn is_particle(w: &[u8]) -> bool
    ensures { result ≡ particle w.now }
{
    matches!(
        w,
        b"type" | b"free" | b"then" | b"else" | b"as" | b"with" | b"open"
    )
}

// Whether a word is the grammar's own, and begins no term.
fn is_reserved(w: &[u8]) -> bool
    ensures { result ≡ reserved w.now }
{
    is_particle(w) || type_kind(w).is_some() || process_word(w).is_some()
}

/// What the first word of a term says. No term begins with another of the grammar's own words.
pub fn head_of(w: &[u8]) -> Option<Head>
    ensures { result ≡ head w.now }
{
    match w {
        b"ek" => Some(Head::KeyOf(TermKind::Ek)),
        b"vk" => Some(Head::KeyOf(TermKind::Vk)),
        b"senc" => Some(Head::Under(TermKind::Senc)),
        b"aenc" => Some(Head::Under(TermKind::Aenc)),
        b"sign" => Some(Head::Under(TermKind::Sign)),
        _ if is_reserved(w) => None,
        _ => Some(Head::Name),
    }
}

/// Which process begins so, if one does.
pub fn first_of(text: &[u8], span: Span) -> Option<ProcessKind>
    ensures { result ≡ first text.now span }
{
    match span.token {
        Token::Single(Mark::Open) => Some(ProcessKind::Both),
        Token::Single(Mark::Bang) => Some(ProcessKind::Again),
        Token::Word => process_word(spell(text, span)),
        _ => None,
    }
}

ghost use Rattle.std.specs.Prelude.{◌≡◌, ◌≤◌, ◌↔◌};
ghost use Rattle.words.specs.declared.token.Mark.{Mark};
ghost use Rattle.words.specs.Bytes.{class};
ghost use Rattle.words.specs.Scan.{mark_code};

use crate::token::Mark;

// What a byte can be part of.
// Kept: `Other` is one of the classes over which the reader's match decides; as a `None` it would
// put an `Option` into each of that match's arms and say no more.
#[derive(Clone, Copy)]
pub(crate) enum Class {
    Separator,
    Letter,
    Digit,
    Single(Mark),
    Other,
}

// The class of a byte. Letters and digits are those of ASCII, and a mark is its own character.
pub(crate) fn class_of(b: u8) -> Class
    ensures which { result ≡ class b }
    ensures digit { result ≡ Class.Digit → (48 ≤ b) × (b ≤ 57) }
    ensures mark { (m : Mark) → (result ≡ Class.Single m) ↔ (b ≡ mark_code m) }
{
    match b as char {
        'a'..='z' | 'A'..='Z' => Class::Letter,
        '0'..='9' => Class::Digit,
        '\t' | '\n' | '\r' | ' ' => Class::Separator,
        '(' => Class::Single(Mark::Open),
        ')' => Class::Single(Mark::Close),
        ';' => Class::Single(Mark::Semicolon),
        ',' => Class::Single(Mark::Comma),
        '.' => Class::Single(Mark::Dot),
        ':' => Class::Single(Mark::Colon),
        '|' => Class::Single(Mark::Bar),
        '!' => Class::Single(Mark::Bang),
        '=' => Class::Single(Mark::Equals),
        _ => Class::Other,
    }
}

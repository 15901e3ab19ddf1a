ghost use Rattle.std.specs.Prelude.{◌≡◌, reverse};
ghost use Rattle.scanning.specs.Names.{row_of};

use crate::spelling::spell;
use arrayvec::ArrayVec;
use words::Span;

/// A word that names a type, and the type's row.
#[derive(Clone, Copy, Debug, Default, PartialEq, Eq)]
pub struct TypeWord {
    pub word: Span,
    pub row: u16,
}

/// The declared words, the oldest first. A declaration takes at least 15 bytes, as
/// `type a=level 0;`, so a text of 32,768 bytes has at most 2,184.
pub type TypeWords = ArrayVec<TypeWord, 2184>;

/// The row of the newest type whose word is spelt `w`.
pub fn row_of(text: &[u8], types: &[TypeWord], w: &[u8]) -> Option<u16>
    ensures { result ≡ row_of text.now (reverse types.now) w.now }
{
    types
        .iter()
        .rev()
        .find(|t| spell(text, t.word) == w)
        .map(|t| t.row)
}

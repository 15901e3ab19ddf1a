ghost use Rattle.std.specs.Prelude.{◌≡◌};
ghost use Rattle.scanning.specs.Spelling.{bytes_of};

use words::Span;

/// The bytes of a token, as far as the text has them.
pub fn spell(text: &[u8], word: Span) -> &[u8]
    ensures { result.now ≡ bytes_of text.now word }
{
    let end = word.end.min(text.len());
    let start = word.start.min(end);
    &text[start..end]
}

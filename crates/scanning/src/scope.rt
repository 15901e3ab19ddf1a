ghost use Rattle.std.specs.Prelude.{◌≡◌, ◌≤◌, length};

use crate::spelling::spell;
use words::Span;

/// The names in scope: the words that bind them, the oldest first.
// Kept: an array and a count, by a rule of the project: a guard of the reader puts back the count of
// names on every way out, so the scope is a small record with a count.
#[derive(Drop)]
pub struct Scope {
    pub names: [Span; 32],
    pub count: u16,
    ghost full: { length names ≡ 32 },
    ghost few: { count ≤ 32 },
}

impl Scope {
    ghost use Rattle.std.specs.Prelude.{replicate, reverse};
    ghost use Rattle.scanning.specs.Names.{no_span, scoped, slot_of};

    /// Room for names, with none in scope.
    pub fn new() -> Scope
        ensures names { result.names ≡ replicate 32 no_span }
        ensures count { result.count ≡ 0 }
    {
        Scope {
            names: [Span::default(); 32],
            count: 0,
        }
    }

    // The names in scope, the oldest first.
    fn in_scope(&self) -> &[Span]
        ensures names { reverse result.now ≡ (scoped self.now).names }
        ensures few { length result.now ≡ self.now.count }
    {
        &self.names[..usize::from(self.count)]
    }

    /// The slot of the newest name that is spelt `w`.
    pub fn slot_of(&self, text: &[u8], w: &[u8]) -> Option<u16>
        ensures { result ≡ slot_of text.now (scoped self.now).names w.now }
    {
        self.in_scope()
            .iter()
            .rposition(|name| spell(text, *name) == w)
            .map(|slot| slot as u16)
    }
}

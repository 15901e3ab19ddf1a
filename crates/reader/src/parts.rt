use rows::{TermKind, TermRow, TypeKind, TypeRow};

// Up to four rows, of terms or of types.
// Kept: the count beside the array. A type row and a term row store both just so, with zeros above
// the count; from an `ArrayVec` each row would be copied out entry by entry.
#[derive(Clone, Copy, Default)]
pub(crate) struct Parts {
    pub(crate) count: u16,
    pub(crate) at: [u16; 4],
}

impl Parts {
    ghost use Rattle.std.specs.Prelude.{◌≡◌, ◌<◌};
    ghost use Rattle.reader.specs.Lists.{added};
    ghost use Rattle.reader.specs.Terms.{composite};
    ghost use Rattle.reader.specs.Types.{type_row};

    // One more row.
    pub(crate) fn push(&mut self, row: u16)
        requires { self.old.count < 4 }
        ensures { self.new ≡ added self.old row }
    {
        self.at[self.count as usize] = row;
        self.count += 1;
    }

    // A term of the parts and a key.
    pub(crate) fn under(self, kind: TermKind, key: u16) -> TermRow
        ensures { result ≡ composite kind self key }
    {
        let Parts { count, at: parts } = self;
        TermRow {
            kind,
            slot: 0,
            count,
            parts,
            key,
        }
    }

    // A type with the parts as its payload.
    pub(crate) fn typed(self, kind: TypeKind, level: u16) -> TypeRow
        ensures { result ≡ type_row kind level self }
    {
        let Parts { count, at: payload } = self;
        TypeRow {
            kind,
            level,
            count,
            payload,
        }
    }
}

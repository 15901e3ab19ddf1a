ghost use Rattle.std.specs.Prelude.{◌≡◌};
ghost use Rattle.levels.specs.Means.{means};
ghost use Rattle.typing.specs.Usage.{declared_use, open_use, misuse, used, verified, chosen};

use crate::misuse::Misuse;
use crate::rules::Rules;
use levels::{Scheme, is_public};
use rows::{TypeKind, TypeRow};

/// How a key or channel is used.
#[derive(Clone, Copy, Debug, PartialEq, Eq)]
pub enum Usage {
    /// as its type declares
    Declared,
    /// as anybody may use it, since all is public
    Open,
}

impl Usage {
    // A declared use comes to the one, and an open use to the other.
    pub(crate) fn choose<T: Copy>(self, declared: T, open: T) -> T
        ensures { result ≡ chosen self declared «open» }
    {
        match self {
            Usage::Declared => declared,
            Usage::Open => open,
        }
    }
}

impl<S: Scheme> Rules<'_, S> {
    // The kind asked, the count, and each part fitting its payload type.
    fn is_declared(&self, key: TypeRow, asked: TypeKind, count: u16, parts: &[TypeRow]) -> bool
        ensures { result ≡ declared_use (means S.Scheme self.now.scheme.now) self.now.types.now key asked count parts.now }
    {
        key.kind == asked && key.count == count && self.parts_fit(key.payload, parts)
    }

    // The key and every part are public.
    fn is_open(&self, key: TypeRow, parts: &[TypeRow]) -> bool
        ensures { result ≡ open_use (means S.Scheme self.now.scheme.now) key parts.now }
    {
        is_public(self.scheme, key.level) && self.parts_public(parts)
    }

    // What is wrong where neither use is allowed.
    fn misuse_of(&self, key: TypeRow, asked: TypeKind, count: u16) -> Misuse
        ensures { result ≡ misuse (means S.Scheme self.now.scheme.now) key asked count }
    {
        let right = key.kind == asked;
        if right && key.count != count {
            Misuse::Count
        } else if right || is_public(self.scheme, key.level) {
            Misuse::Part
        } else {
            Misuse::Kind
        }
    }

    /// How a key or channel is used where a kind and a count are asked, with these parts.
    // Kept: `asked`, `count` and `parts` travel together here; `Asked { kind: TypeKind::Sym,
    // count: p.count, parts: &[] }` at each caller is no plainer.
    pub fn use_key(
        &self,
        key: TypeRow,
        asked: TypeKind,
        count: u16,
        parts: &[TypeRow],
    ) -> Result<Usage, Misuse>
        ensures { result ≡ used (means S.Scheme self.now.scheme.now) self.now.types.now key asked count parts.now }
    {
        if self.is_declared(key, asked, count, parts) {
            Ok(Usage::Declared)
        } else if self.is_open(key, parts) {
            Ok(Usage::Open)
        } else {
            Err(self.misuse_of(key, asked, count))
        }
    }

    /// How a key is used to verify a message: its open use asks for a public message too.
    pub fn use_verification_key(
        &self,
        key: TypeRow,
        count: u16,
        message: TypeRow,
    ) -> Result<Usage, Misuse>
        ensures { result ≡ verified (means S.Scheme self.now.scheme.now) self.now.types.now key count message }
    {
        if self.is_declared(key, TypeKind::Ver, count, &[]) {
            Ok(Usage::Declared)
        } else if self.is_open(key, &[message]) {
            Ok(Usage::Open)
        } else if is_public(self.scheme, key.level) {
            Err(Misuse::Message)
        } else {
            Err(self.misuse_of(key, TypeKind::Ver, count))
        }
    }
}

// The schemes that a listing is tried under, each with its secrets' level.
use crate::tables::{declared, level};
use crate::verdicts::parties;
use levels::{FourLevels, Parties};
use rows::{TypeKind, TypeRow};
use std::test::Fail;

// A scheme, with the number that its open level is to have, and the guarded level of the secrets.
#[derive(Clone, Copy)]
pub(crate) struct Setting<S> {
    pub(crate) scheme: S,
    open: u16,
    secret: u16,
}

impl<S> Setting<S> {
    pub(crate) fn open(&self) -> TypeRow {
        level(self.open)
    }

    pub(crate) fn secret(&self) -> TypeRow {
        level(self.secret)
    }

    // A channel or a key at the secrets' level, with one payload type.
    pub(crate) fn declared(&self, kind: TypeKind, payload: u16) -> TypeRow {
        declared(kind, self.secret, payload)
    }
}

pub(crate) fn four_levels() -> Setting<FourLevels> {
    Setting {
        scheme: FourLevels,
        open: 1,
        secret: 2,
    }
}

// Secrets have the first two parties as readers and as writers.
pub(crate) fn three_parties() -> Result<Setting<Parties>, Fail> {
    Ok(Setting {
        scheme: parties(3)?,
        open: 63,
        secret: 27,
    })
}

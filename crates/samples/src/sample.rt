use rows::{Listing, ProcessKind, ProcessRow, TermKind, TermRow, TypeKind, TypeRow};

/// A protocol with a name.
#[derive(Clone, Copy)]
pub struct Sample {
    pub name: &'static str,
    pub listing: Listing<'static>,
}

// Rows with zeros, which the tables fill in where a field has a use.
// Kept: zeros written out, since the value of a constant can call no function, not even `default`.

pub(crate) const LEVEL: TypeRow = TypeRow {
    kind: TypeKind::Level,
    level: 0,
    count: 0,
    payload: [0, 0, 0, 0],
};

pub(crate) const SLOT: TermRow = TermRow {
    kind: TermKind::Slot,
    slot: 0,
    count: 0,
    parts: [0, 0, 0, 0],
    key: 0,
};

pub(crate) const STOP: ProcessRow = ProcessRow {
    kind: ProcessKind::Stop,
    slots: 0,
    end: 0,
    ty: 0,
    count: 0,
    first: 0,
    terms: 0,
    operands: [0, 0, 0, 0, 0],
};

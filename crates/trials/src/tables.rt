// Rows of tables, with zeros where a field has no use.
use rows::{Listing, ProcessKind, ProcessRow, TermKind, TermRow, TypeKind, TypeRow};

pub(crate) fn level(a: u16) -> TypeRow {
    TypeRow::plain(a)
}

// A channel or a key with one payload type.
pub(crate) fn declared(kind: TypeKind, level: u16, payload: u16) -> TypeRow {
    TypeRow {
        kind,
        level,
        count: 1,
        payload: [payload, 0, 0, 0],
    }
}

pub(crate) fn slot(slot: u16) -> TermRow {
    TermRow {
        kind: TermKind::Slot,
        slot,
        ..TermRow::default()
    }
}

// The public key of a key.
pub(crate) fn derived(kind: TermKind, key: u16) -> TermRow {
    TermRow {
        kind,
        key,
        ..TermRow::default()
    }
}

// An encryption or a signature of one part.
pub(crate) fn made(kind: TermKind, part: u16, key: u16) -> TermRow {
    TermRow {
        kind,
        count: 1,
        parts: [part, 0, 0, 0],
        key,
        ..TermRow::default()
    }
}

// A row that acts on terms: its run is given by its first row and its length.
pub(crate) fn acts(
    kind: ProcessKind,
    slots: u16,
    end: u16,
    count: u16,
    run: [u16; 2],
    operands: [u16; 5],
) -> ProcessRow {
    let [first, terms] = run;
    ProcessRow {
        kind,
        slots,
        end,
        count,
        first,
        terms,
        operands,
        ..ProcessRow::default()
    }
}

// A row without terms; the run of the row before it ends at `first`.
pub(crate) fn bare(kind: ProcessKind, slots: u16, end: u16, first: u16) -> ProcessRow {
    acts(kind, slots, end, 0, [first, 0], [0; 5])
}

pub(crate) fn new(slots: u16, end: u16, ty: u16, first: u16) -> ProcessRow {
    ProcessRow {
        kind: ProcessKind::New,
        slots,
        end,
        ty,
        first,
        ..ProcessRow::default()
    }
}

pub(crate) fn listing<'a>(
    types: &'a [TypeRow],
    processes: &'a [ProcessRow],
    terms: &'a [TermRow],
) -> Listing<'a> {
    Listing {
        types,
        processes,
        terms,
    }
}

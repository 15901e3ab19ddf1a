ghost use Rattle.samples.specs.Sized.{IsSized};

use crate::sample::{LEVEL, SLOT, STOP, Sample};
use rows::{Listing, ProcessKind, ProcessRow, TermKind, TermRow, TypeKind, TypeRow};

// type s = level 2;
// type w = sym 2 (s);
// type l = sym 2 (w);
// free c;
// new long : l .
// ( ! new k : w . out c (senc(k; long)) . new m : s . out c (senc(m; k)) . stop
// | ! in c (x) . sopen x as (y) with long . in c (z) . sopen z as (n) with y . stop )
static TRANSPORT_TYPES: [TypeRow; 4] = [
    TypeRow { level: 1, ..LEVEL },
    TypeRow { level: 2, ..LEVEL },
    TypeRow {
        kind: TypeKind::Sym,
        level: 2,
        count: 1,
        payload: [1, 0, 0, 0],
    },
    TypeRow {
        kind: TypeKind::Sym,
        level: 2,
        count: 1,
        payload: [2, 0, 0, 0],
    },
];

static TRANSPORT_PROCESSES: [ProcessRow; 14] = [
    ProcessRow {
        kind: ProcessKind::New,
        slots: 1,
        end: 14,
        ty: 3,
        ..STOP
    },
    ProcessRow {
        kind: ProcessKind::Both,
        slots: 2,
        end: 14,
        ..STOP
    },
    ProcessRow {
        kind: ProcessKind::Again,
        slots: 2,
        end: 8,
        ..STOP
    },
    ProcessRow {
        kind: ProcessKind::New,
        slots: 2,
        end: 8,
        ty: 2,
        ..STOP
    },
    ProcessRow {
        kind: ProcessKind::Out,
        slots: 3,
        end: 8,
        count: 1,
        terms: 4,
        operands: [0, 3, 0, 0, 0],
        ..STOP
    },
    ProcessRow {
        kind: ProcessKind::New,
        slots: 3,
        end: 8,
        ty: 1,
        first: 4,
        ..STOP
    },
    ProcessRow {
        kind: ProcessKind::Out,
        slots: 4,
        end: 8,
        count: 1,
        first: 4,
        terms: 4,
        operands: [0, 3, 0, 0, 0],
        ..STOP
    },
    ProcessRow {
        slots: 4,
        end: 8,
        first: 8,
        ..STOP
    },
    ProcessRow {
        kind: ProcessKind::Again,
        slots: 2,
        end: 14,
        first: 8,
        ..STOP
    },
    ProcessRow {
        kind: ProcessKind::In,
        slots: 2,
        end: 14,
        count: 1,
        first: 8,
        terms: 1,
        ..STOP
    },
    ProcessRow {
        kind: ProcessKind::Sopen,
        slots: 3,
        end: 14,
        count: 1,
        first: 9,
        terms: 2,
        operands: [0, 1, 0, 0, 0],
        ..STOP
    },
    ProcessRow {
        kind: ProcessKind::In,
        slots: 4,
        end: 14,
        count: 1,
        first: 11,
        terms: 1,
        ..STOP
    },
    ProcessRow {
        kind: ProcessKind::Sopen,
        slots: 5,
        end: 14,
        count: 1,
        first: 12,
        terms: 2,
        operands: [0, 1, 0, 0, 0],
        ..STOP
    },
    ProcessRow {
        slots: 6,
        end: 14,
        first: 14,
        ..STOP
    },
];

static TRANSPORT_TERMS: [TermRow; 14] = [
    TermRow { slot: 0, ..SLOT },
    TermRow { slot: 2, ..SLOT },
    TermRow { slot: 1, ..SLOT },
    TermRow {
        kind: TermKind::Senc,
        count: 1,
        parts: [1, 0, 0, 0],
        key: 2,
        ..SLOT
    },
    TermRow { slot: 0, ..SLOT },
    TermRow { slot: 3, ..SLOT },
    TermRow { slot: 2, ..SLOT },
    TermRow {
        kind: TermKind::Senc,
        count: 1,
        parts: [1, 0, 0, 0],
        key: 2,
        ..SLOT
    },
    TermRow { slot: 0, ..SLOT },
    TermRow { slot: 2, ..SLOT },
    TermRow { slot: 1, ..SLOT },
    TermRow { slot: 0, ..SLOT },
    TermRow { slot: 4, ..SLOT },
    TermRow { slot: 3, ..SLOT },
];

/// A session key is sent under a long-term key, and a secret under the session key.
pub fn key_transport() -> Sample
    ensures { IsSized result 4 14 14 }
{
    Sample {
        name: "key transport",
        listing: Listing {
            types: &TRANSPORT_TYPES,
            processes: &TRANSPORT_PROCESSES,
            terms: &TRANSPORT_TERMS,
        },
    }
}

// type s = level 2;
// type w = sym 2 (s);
// type l = sym 2 (w);
// free c;
// new long : l .
// ( ! new k : w . out c (k) . new m : s . out c (senc(m; k)) . stop
// | ! in c (y) . in c (z) . sopen z as (n) with y . stop )
static CLEAR_PROCESSES: [ProcessRow; 13] = [
    ProcessRow {
        kind: ProcessKind::New,
        slots: 1,
        end: 13,
        ty: 3,
        ..STOP
    },
    ProcessRow {
        kind: ProcessKind::Both,
        slots: 2,
        end: 13,
        ..STOP
    },
    ProcessRow {
        kind: ProcessKind::Again,
        slots: 2,
        end: 8,
        ..STOP
    },
    ProcessRow {
        kind: ProcessKind::New,
        slots: 2,
        end: 8,
        ty: 2,
        ..STOP
    },
    ProcessRow {
        kind: ProcessKind::Out,
        slots: 3,
        end: 8,
        count: 1,
        terms: 2,
        operands: [0, 1, 0, 0, 0],
        ..STOP
    },
    ProcessRow {
        kind: ProcessKind::New,
        slots: 3,
        end: 8,
        ty: 1,
        first: 2,
        ..STOP
    },
    ProcessRow {
        kind: ProcessKind::Out,
        slots: 4,
        end: 8,
        count: 1,
        first: 2,
        terms: 4,
        operands: [0, 3, 0, 0, 0],
        ..STOP
    },
    ProcessRow {
        slots: 4,
        end: 8,
        first: 6,
        ..STOP
    },
    ProcessRow {
        kind: ProcessKind::Again,
        slots: 2,
        end: 13,
        first: 6,
        ..STOP
    },
    ProcessRow {
        kind: ProcessKind::In,
        slots: 2,
        end: 13,
        count: 1,
        first: 6,
        terms: 1,
        ..STOP
    },
    ProcessRow {
        kind: ProcessKind::In,
        slots: 3,
        end: 13,
        count: 1,
        first: 7,
        terms: 1,
        ..STOP
    },
    ProcessRow {
        kind: ProcessKind::Sopen,
        slots: 4,
        end: 13,
        count: 1,
        first: 8,
        terms: 2,
        operands: [0, 1, 0, 0, 0],
        ..STOP
    },
    ProcessRow {
        slots: 5,
        end: 13,
        first: 10,
        ..STOP
    },
];

static CLEAR_TERMS: [TermRow; 10] = [
    TermRow { slot: 0, ..SLOT },
    TermRow { slot: 2, ..SLOT },
    TermRow { slot: 0, ..SLOT },
    TermRow { slot: 3, ..SLOT },
    TermRow { slot: 2, ..SLOT },
    TermRow {
        kind: TermKind::Senc,
        count: 1,
        parts: [1, 0, 0, 0],
        key: 2,
        ..SLOT
    },
    TermRow { slot: 0, ..SLOT },
    TermRow { slot: 0, ..SLOT },
    TermRow { slot: 3, ..SLOT },
    TermRow { slot: 2, ..SLOT },
];

/// The session key is sent in the clear: refused with 31 at the output of the key.
pub fn key_in_the_clear() -> Sample
    ensures { IsSized result 4 13 10 }
{
    Sample {
        name: "key in the clear",
        listing: Listing {
            types: &TRANSPORT_TYPES,
            processes: &CLEAR_PROCESSES,
            terms: &CLEAR_TERMS,
        },
    }
}

ghost use Rattle.samples.specs.Sized.{IsSized};

use crate::sample::{LEVEL, SLOT, STOP, Sample};
use rows::{Listing, ProcessKind, ProcessRow, TermKind, TermRow, TypeKind, TypeRow};

// type s = level 2;
// type w = sym 2 (s);
// type y = dec 2 (s);
// type g = sig 2 (open);
// free c;
// new k : w . new d : y . new b : g .
// ( ! in c (x) . sopen x as (m) with k .
//     if m = c then out c (sign(aenc(m; ek(d)); b)) . stop else out c (senc(m; k)) . stop
// | in c (x) . verify x as (e) with vk(b) . aopen e as (a) with d .
//     out c (aenc(a; ek(d))) . stop )
static KINDS_TYPES: [TypeRow; 5] = [
    TypeRow { level: 1, ..LEVEL },
    TypeRow { level: 2, ..LEVEL },
    TypeRow {
        kind: TypeKind::Sym,
        level: 2,
        count: 1,
        payload: [1, 0, 0, 0],
    },
    TypeRow {
        kind: TypeKind::Dec,
        level: 2,
        count: 1,
        payload: [1, 0, 0, 0],
    },
    TypeRow {
        kind: TypeKind::Sig,
        level: 2,
        count: 1,
        payload: [0, 0, 0, 0],
    },
];

static KINDS_PROCESSES: [ProcessRow; 17] = [
    ProcessRow {
        kind: ProcessKind::New,
        slots: 1,
        end: 17,
        ty: 2,
        ..STOP
    },
    ProcessRow {
        kind: ProcessKind::New,
        slots: 2,
        end: 17,
        ty: 3,
        ..STOP
    },
    ProcessRow {
        kind: ProcessKind::New,
        slots: 3,
        end: 17,
        ty: 4,
        ..STOP
    },
    ProcessRow {
        kind: ProcessKind::Both,
        slots: 4,
        end: 17,
        ..STOP
    },
    ProcessRow {
        kind: ProcessKind::Again,
        slots: 4,
        end: 12,
        ..STOP
    },
    ProcessRow {
        kind: ProcessKind::In,
        slots: 4,
        end: 12,
        count: 1,
        terms: 1,
        ..STOP
    },
    ProcessRow {
        kind: ProcessKind::Sopen,
        slots: 5,
        end: 12,
        count: 1,
        first: 1,
        terms: 2,
        operands: [0, 1, 0, 0, 0],
        ..STOP
    },
    ProcessRow {
        kind: ProcessKind::If,
        slots: 6,
        end: 12,
        first: 3,
        terms: 2,
        operands: [0, 1, 0, 0, 0],
        ..STOP
    },
    ProcessRow {
        kind: ProcessKind::Out,
        slots: 6,
        end: 10,
        count: 1,
        first: 5,
        terms: 7,
        operands: [0, 6, 0, 0, 0],
        ..STOP
    },
    ProcessRow {
        slots: 6,
        end: 10,
        first: 12,
        ..STOP
    },
    ProcessRow {
        kind: ProcessKind::Out,
        slots: 6,
        end: 12,
        count: 1,
        first: 12,
        terms: 4,
        operands: [0, 3, 0, 0, 0],
        ..STOP
    },
    ProcessRow {
        slots: 6,
        end: 12,
        first: 16,
        ..STOP
    },
    ProcessRow {
        kind: ProcessKind::In,
        slots: 4,
        end: 17,
        count: 1,
        first: 16,
        terms: 1,
        ..STOP
    },
    ProcessRow {
        kind: ProcessKind::Verify,
        slots: 5,
        end: 17,
        count: 1,
        first: 17,
        terms: 3,
        operands: [0, 2, 0, 0, 0],
        ..STOP
    },
    ProcessRow {
        kind: ProcessKind::Aopen,
        slots: 6,
        end: 17,
        count: 1,
        first: 20,
        terms: 2,
        operands: [0, 1, 0, 0, 0],
        ..STOP
    },
    ProcessRow {
        kind: ProcessKind::Out,
        slots: 7,
        end: 17,
        count: 1,
        first: 22,
        terms: 5,
        operands: [0, 4, 0, 0, 0],
        ..STOP
    },
    ProcessRow {
        slots: 7,
        end: 17,
        first: 27,
        ..STOP
    },
];

static KINDS_TERMS: [TermRow; 27] = [
    TermRow { slot: 0, ..SLOT },
    TermRow { slot: 4, ..SLOT },
    TermRow { slot: 1, ..SLOT },
    TermRow { slot: 5, ..SLOT },
    TermRow { slot: 0, ..SLOT },
    TermRow { slot: 0, ..SLOT },
    TermRow { slot: 5, ..SLOT },
    TermRow { slot: 2, ..SLOT },
    TermRow {
        kind: TermKind::Ek,
        key: 2,
        ..SLOT
    },
    TermRow {
        kind: TermKind::Aenc,
        count: 1,
        parts: [1, 0, 0, 0],
        key: 3,
        ..SLOT
    },
    TermRow { slot: 3, ..SLOT },
    TermRow {
        kind: TermKind::Sign,
        count: 1,
        parts: [4, 0, 0, 0],
        key: 5,
        ..SLOT
    },
    TermRow { slot: 0, ..SLOT },
    TermRow { slot: 5, ..SLOT },
    TermRow { slot: 1, ..SLOT },
    TermRow {
        kind: TermKind::Senc,
        count: 1,
        parts: [1, 0, 0, 0],
        key: 2,
        ..SLOT
    },
    TermRow { slot: 0, ..SLOT },
    TermRow { slot: 4, ..SLOT },
    TermRow { slot: 3, ..SLOT },
    TermRow {
        kind: TermKind::Vk,
        key: 1,
        ..SLOT
    },
    TermRow { slot: 5, ..SLOT },
    TermRow { slot: 2, ..SLOT },
    TermRow { slot: 0, ..SLOT },
    TermRow { slot: 6, ..SLOT },
    TermRow { slot: 2, ..SLOT },
    TermRow {
        kind: TermKind::Ek,
        key: 2,
        ..SLOT
    },
    TermRow {
        kind: TermKind::Aenc,
        count: 1,
        parts: [1, 0, 0, 0],
        key: 3,
        ..SLOT
    },
];

/// One row of every kind, and every form of term.
pub fn every_kind_of_row() -> Sample
    ensures { IsSized result 5 17 27 }
{
    Sample {
        name: "every kind of row",
        listing: Listing {
            types: &KINDS_TYPES,
            processes: &KINDS_PROCESSES,
            terms: &KINDS_TERMS,
        },
    }
}

ghost use Rattle.samples.specs.Sized.{IsSized};

use crate::sample::{LEVEL, SLOT, STOP, Sample};
use rows::{Listing, ProcessKind, ProcessRow, TermKind, TermRow, TypeKind, TypeRow};

// type s = level 2;
// type w = sym 2 (s);
// type y = dec 2 (w);
// type g = sig 2 (open);
// free c;
// new d : y . new b : g . out c (ek(d), vk(b)) .
// ( new k : w . out c (sign(aenc(k; ek(d)); b)) . new m : s . out c (senc(m; k)) . stop
// | in c (x) . verify x as (e) with vk(b) . aopen e as (a) with d . in c (z) . sopen z as (n) with a . stop )
static SIGNED_TYPES: [TypeRow; 5] = [
    TypeRow { level: 1, ..LEVEL },
    TypeRow { level: 2, ..LEVEL },
    TypeRow {
        kind: TypeKind::Sym,
        level: 2,
        count: 1,
        payload: [1, 0, 0, 0],
    },
    TypeRow {
        kind: TypeKind::Dec,
        level: 2,
        count: 1,
        payload: [2, 0, 0, 0],
    },
    TypeRow {
        kind: TypeKind::Sig,
        level: 2,
        count: 1,
        payload: [0, 0, 0, 0],
    },
];

static SIGNED_PROCESSES: [ProcessRow; 15] = [
    ProcessRow {
        kind: ProcessKind::New,
        slots: 1,
        end: 15,
        ty: 3,
        ..STOP
    },
    ProcessRow {
        kind: ProcessKind::New,
        slots: 2,
        end: 15,
        ty: 4,
        ..STOP
    },
    ProcessRow {
        kind: ProcessKind::Out,
        slots: 3,
        end: 15,
        count: 2,
        terms: 5,
        operands: [0, 2, 4, 0, 0],
        ..STOP
    },
    ProcessRow {
        kind: ProcessKind::Both,
        slots: 3,
        end: 15,
        first: 5,
        ..STOP
    },
    ProcessRow {
        kind: ProcessKind::New,
        slots: 3,
        end: 9,
        ty: 2,
        first: 5,
        ..STOP
    },
    ProcessRow {
        kind: ProcessKind::Out,
        slots: 4,
        end: 9,
        count: 1,
        first: 5,
        terms: 7,
        operands: [0, 6, 0, 0, 0],
        ..STOP
    },
    ProcessRow {
        kind: ProcessKind::New,
        slots: 4,
        end: 9,
        ty: 1,
        first: 12,
        ..STOP
    },
    ProcessRow {
        kind: ProcessKind::Out,
        slots: 5,
        end: 9,
        count: 1,
        first: 12,
        terms: 4,
        operands: [0, 3, 0, 0, 0],
        ..STOP
    },
    ProcessRow {
        slots: 5,
        end: 9,
        first: 16,
        ..STOP
    },
    ProcessRow {
        kind: ProcessKind::In,
        slots: 3,
        end: 15,
        count: 1,
        first: 16,
        terms: 1,
        ..STOP
    },
    ProcessRow {
        kind: ProcessKind::Verify,
        slots: 4,
        end: 15,
        count: 1,
        first: 17,
        terms: 3,
        operands: [0, 2, 0, 0, 0],
        ..STOP
    },
    ProcessRow {
        kind: ProcessKind::Aopen,
        slots: 5,
        end: 15,
        count: 1,
        first: 20,
        terms: 2,
        operands: [0, 1, 0, 0, 0],
        ..STOP
    },
    ProcessRow {
        kind: ProcessKind::In,
        slots: 6,
        end: 15,
        count: 1,
        first: 22,
        terms: 1,
        ..STOP
    },
    ProcessRow {
        kind: ProcessKind::Sopen,
        slots: 7,
        end: 15,
        count: 1,
        first: 23,
        terms: 2,
        operands: [0, 1, 0, 0, 0],
        ..STOP
    },
    ProcessRow {
        slots: 8,
        end: 15,
        first: 25,
        ..STOP
    },
];

static SIGNED_TERMS: [TermRow; 25] = [
    TermRow { slot: 0, ..SLOT },
    TermRow { slot: 1, ..SLOT },
    TermRow {
        kind: TermKind::Ek,
        key: 1,
        ..SLOT
    },
    TermRow { slot: 2, ..SLOT },
    TermRow {
        kind: TermKind::Vk,
        key: 3,
        ..SLOT
    },
    TermRow { slot: 0, ..SLOT },
    TermRow { slot: 3, ..SLOT },
    TermRow { slot: 1, ..SLOT },
    TermRow {
        kind: TermKind::Ek,
        key: 2,
        ..SLOT
    },
    TermRow {
        kind: TermKind::Aenc,
        count: 1,
        parts: [1, 0, 0, 0],
        key: 3,
        ..SLOT
    },
    TermRow { slot: 2, ..SLOT },
    TermRow {
        kind: TermKind::Sign,
        count: 1,
        parts: [4, 0, 0, 0],
        key: 5,
        ..SLOT
    },
    TermRow { slot: 0, ..SLOT },
    TermRow { slot: 4, ..SLOT },
    TermRow { slot: 3, ..SLOT },
    TermRow {
        kind: TermKind::Senc,
        count: 1,
        parts: [1, 0, 0, 0],
        key: 2,
        ..SLOT
    },
    TermRow { slot: 0, ..SLOT },
    TermRow { slot: 3, ..SLOT },
    TermRow { slot: 2, ..SLOT },
    TermRow {
        kind: TermKind::Vk,
        key: 1,
        ..SLOT
    },
    TermRow { slot: 4, ..SLOT },
    TermRow { slot: 1, ..SLOT },
    TermRow { slot: 0, ..SLOT },
    TermRow { slot: 6, ..SLOT },
    TermRow { slot: 5, ..SLOT },
];

/// A session key is sent under the receiver's encryption key and signed by the sender.
pub fn signed_key_transport() -> Sample
    ensures { IsSized result 5 15 25 }
{
    Sample {
        name: "signed key transport",
        listing: Listing {
            types: &SIGNED_TYPES,
            processes: &SIGNED_PROCESSES,
            terms: &SIGNED_TERMS,
        },
    }
}

// type s = level 2;
// type w = sym 2 (s);
// type y = dec 2 (w);
// type g = sig 2 (open);
// type q = chan 2 (w);
// free c;
// new d : y . new b : g . new h : q . out c (ek(d), vk(b)) .
// ( new k : w . out c (sign(aenc(k; ek(d)); b)) . stop
// | in c (x) . verify x as (e) with vk(b) . aopen e as (a) with d . out h (a) . stop )
static TRUSTED_TYPES: [TypeRow; 6] = [
    TypeRow { level: 1, ..LEVEL },
    TypeRow { level: 2, ..LEVEL },
    TypeRow {
        kind: TypeKind::Sym,
        level: 2,
        count: 1,
        payload: [1, 0, 0, 0],
    },
    TypeRow {
        kind: TypeKind::Dec,
        level: 2,
        count: 1,
        payload: [2, 0, 0, 0],
    },
    TypeRow {
        kind: TypeKind::Sig,
        level: 2,
        count: 1,
        payload: [0, 0, 0, 0],
    },
    TypeRow {
        kind: TypeKind::Chan,
        level: 2,
        count: 1,
        payload: [2, 0, 0, 0],
    },
];

static TRUSTED_PROCESSES: [ProcessRow; 13] = [
    ProcessRow {
        kind: ProcessKind::New,
        slots: 1,
        end: 13,
        ty: 3,
        ..STOP
    },
    ProcessRow {
        kind: ProcessKind::New,
        slots: 2,
        end: 13,
        ty: 4,
        ..STOP
    },
    ProcessRow {
        kind: ProcessKind::New,
        slots: 3,
        end: 13,
        ty: 5,
        ..STOP
    },
    ProcessRow {
        kind: ProcessKind::Out,
        slots: 4,
        end: 13,
        count: 2,
        terms: 5,
        operands: [0, 2, 4, 0, 0],
        ..STOP
    },
    ProcessRow {
        kind: ProcessKind::Both,
        slots: 4,
        end: 13,
        first: 5,
        ..STOP
    },
    ProcessRow {
        kind: ProcessKind::New,
        slots: 4,
        end: 8,
        ty: 2,
        first: 5,
        ..STOP
    },
    ProcessRow {
        kind: ProcessKind::Out,
        slots: 5,
        end: 8,
        count: 1,
        first: 5,
        terms: 7,
        operands: [0, 6, 0, 0, 0],
        ..STOP
    },
    ProcessRow {
        slots: 5,
        end: 8,
        first: 12,
        ..STOP
    },
    ProcessRow {
        kind: ProcessKind::In,
        slots: 4,
        end: 13,
        count: 1,
        first: 12,
        terms: 1,
        ..STOP
    },
    ProcessRow {
        kind: ProcessKind::Verify,
        slots: 5,
        end: 13,
        count: 1,
        first: 13,
        terms: 3,
        operands: [0, 2, 0, 0, 0],
        ..STOP
    },
    ProcessRow {
        kind: ProcessKind::Aopen,
        slots: 6,
        end: 13,
        count: 1,
        first: 16,
        terms: 2,
        operands: [0, 1, 0, 0, 0],
        ..STOP
    },
    ProcessRow {
        kind: ProcessKind::Out,
        slots: 7,
        end: 13,
        count: 1,
        first: 18,
        terms: 2,
        operands: [0, 1, 0, 0, 0],
        ..STOP
    },
    ProcessRow {
        slots: 7,
        end: 13,
        first: 20,
        ..STOP
    },
];

static TRUSTED_TERMS: [TermRow; 20] = [
    TermRow { slot: 0, ..SLOT },
    TermRow { slot: 1, ..SLOT },
    TermRow {
        kind: TermKind::Ek,
        key: 1,
        ..SLOT
    },
    TermRow { slot: 2, ..SLOT },
    TermRow {
        kind: TermKind::Vk,
        key: 3,
        ..SLOT
    },
    TermRow { slot: 0, ..SLOT },
    TermRow { slot: 4, ..SLOT },
    TermRow { slot: 1, ..SLOT },
    TermRow {
        kind: TermKind::Ek,
        key: 2,
        ..SLOT
    },
    TermRow {
        kind: TermKind::Aenc,
        count: 1,
        parts: [1, 0, 0, 0],
        key: 3,
        ..SLOT
    },
    TermRow { slot: 2, ..SLOT },
    TermRow {
        kind: TermKind::Sign,
        count: 1,
        parts: [4, 0, 0, 0],
        key: 5,
        ..SLOT
    },
    TermRow { slot: 0, ..SLOT },
    TermRow { slot: 4, ..SLOT },
    TermRow { slot: 2, ..SLOT },
    TermRow {
        kind: TermKind::Vk,
        key: 1,
        ..SLOT
    },
    TermRow { slot: 5, ..SLOT },
    TermRow { slot: 1, ..SLOT },
    TermRow { slot: 3, ..SLOT },
    TermRow { slot: 6, ..SLOT },
];

/// The receiver passes on what it decrypts as a key, though anybody may have encrypted it: refused with
/// 31 in the second reading, at the output.
pub fn plaintext_trusted() -> Sample
    ensures { IsSized result 6 13 20 }
{
    Sample {
        name: "plaintext trusted",
        listing: Listing {
            types: &TRUSTED_TYPES,
            processes: &TRUSTED_PROCESSES,
            terms: &TRUSTED_TERMS,
        },
    }
}

// type s = level 2;
// type f = sig 2 (s);
// free c;
// new m : s . new b : f . out c (vk(b)) . out c (sign(m; b)) . stop
static PUBLISHED_TYPES: [TypeRow; 3] = [
    TypeRow { level: 1, ..LEVEL },
    TypeRow { level: 2, ..LEVEL },
    TypeRow {
        kind: TypeKind::Sig,
        level: 2,
        count: 1,
        payload: [1, 0, 0, 0],
    },
];

static PUBLISHED_PROCESSES: [ProcessRow; 5] = [
    ProcessRow {
        kind: ProcessKind::New,
        slots: 1,
        end: 5,
        ty: 1,
        ..STOP
    },
    ProcessRow {
        kind: ProcessKind::New,
        slots: 2,
        end: 5,
        ty: 2,
        ..STOP
    },
    ProcessRow {
        kind: ProcessKind::Out,
        slots: 3,
        end: 5,
        count: 1,
        terms: 3,
        operands: [0, 2, 0, 0, 0],
        ..STOP
    },
    ProcessRow {
        kind: ProcessKind::Out,
        slots: 3,
        end: 5,
        count: 1,
        first: 3,
        terms: 4,
        operands: [0, 3, 0, 0, 0],
        ..STOP
    },
    ProcessRow {
        slots: 3,
        end: 5,
        first: 7,
        ..STOP
    },
];

static PUBLISHED_TERMS: [TermRow; 7] = [
    TermRow { slot: 0, ..SLOT },
    TermRow { slot: 2, ..SLOT },
    TermRow {
        kind: TermKind::Vk,
        key: 1,
        ..SLOT
    },
    TermRow { slot: 0, ..SLOT },
    TermRow { slot: 1, ..SLOT },
    TermRow { slot: 2, ..SLOT },
    TermRow {
        kind: TermKind::Sign,
        count: 1,
        parts: [1, 0, 0, 0],
        key: 2,
        ..SLOT
    },
];

/// The signature of a secret is published: refused with 31 at its output.
pub fn secret_signature_published() -> Sample
    ensures { IsSized result 3 5 7 }
{
    Sample {
        name: "secret signature published",
        listing: Listing {
            types: &PUBLISHED_TYPES,
            processes: &PUBLISHED_PROCESSES,
            terms: &PUBLISHED_TERMS,
        },
    }
}

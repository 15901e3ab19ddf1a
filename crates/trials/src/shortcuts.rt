use crate::settings::{Setting, four_levels, three_parties};
use crate::tables::{acts, bare, declared, level, listing, made, new, slot};
use crate::uses::open_part_on_a_channel;
use crate::verdicts::{accepts, parties, refuses};
use levels::{FourLevels, Scheme};
use rows::{ProcessKind, TermKind, TypeKind};
use std::process::Abort;
use std::test::Fail;

// The first reading passes: only the second is refused.
// type s = level 2;
// type y = dec 2 (s);
// type q = chan 2 (s);
// free c;
// new d : y . new h : q . in c (x) . aopen x as (a) with d . out h (a) . stop
fn plaintext_on_a_channel<S: Scheme>(rt: &impl Abort, s: &Setting<S>) -> Result<(), Fail> {
    let types = [
        s.open(),
        s.secret(),
        s.declared(TypeKind::Dec, 1),
        s.declared(TypeKind::Chan, 1),
    ];
    let processes = [
        new(1, 6, 2, 0),
        new(2, 6, 3, 0),
        acts(ProcessKind::In, 3, 6, 1, [0, 1], [0, 0, 0, 0, 0]),
        acts(ProcessKind::Aopen, 4, 6, 1, [1, 2], [0, 1, 0, 0, 0]),
        acts(ProcessKind::Out, 5, 6, 1, [3, 2], [0, 1, 0, 0, 0]),
        bare(ProcessKind::Stop, 5, 6, 5),
    ];
    let terms = [slot(0), slot(3), slot(1), slot(2), slot(4)];
    refuses(rt, &s.scheme, listing(&types, &processes, &terms), 31, 4)
}

// The whole first reading goes first, though the second is refused at a lower row.
// type s = level 2;
// type y = dec 2 (s);
// type q = chan 2 (s);
// free c;
// new d : y . new h : q . in c (x) . aopen x as (a) with d . out h (a) . out c (a) . stop
fn both_readings_refused<S: Scheme>(rt: &impl Abort, s: &Setting<S>) -> Result<(), Fail> {
    let types = [
        s.open(),
        s.secret(),
        s.declared(TypeKind::Dec, 1),
        s.declared(TypeKind::Chan, 1),
    ];
    let processes = [
        new(1, 7, 2, 0),
        new(2, 7, 3, 0),
        acts(ProcessKind::In, 3, 7, 1, [0, 1], [0, 0, 0, 0, 0]),
        acts(ProcessKind::Aopen, 4, 7, 1, [1, 2], [0, 1, 0, 0, 0]),
        acts(ProcessKind::Out, 5, 7, 1, [3, 2], [0, 1, 0, 0, 0]),
        acts(ProcessKind::Out, 5, 7, 1, [5, 2], [0, 1, 0, 0, 0]),
        bare(ProcessKind::Stop, 5, 7, 7),
    ];
    let terms = [
        slot(0),
        slot(3),
        slot(1),
        slot(2),
        slot(4),
        slot(0),
        slot(4),
    ];
    refuses(rt, &s.scheme, listing(&types, &processes, &terms), 31, 5)
}

// An open key: one reading, with an open variable.
// free c;
// in c (x) . aopen x as (a) with c . out c (a) . stop
fn plaintext_under_an_open_key<S: Scheme>(rt: &impl Abort, s: &Setting<S>) -> Result<(), Fail> {
    let types = [s.open()];
    let processes = [
        acts(ProcessKind::In, 1, 4, 1, [0, 1], [0, 0, 0, 0, 0]),
        acts(ProcessKind::Aopen, 2, 4, 1, [1, 2], [0, 1, 0, 0, 0]),
        acts(ProcessKind::Out, 3, 4, 1, [3, 2], [0, 1, 0, 0, 0]),
        bare(ProcessKind::Stop, 3, 4, 5),
    ];
    let terms = [slot(0), slot(1), slot(0), slot(0), slot(2)];
    accepts(rt, &s.scheme, listing(&types, &processes, &terms))
}

#[test]
fn aopen_is_read_twice(rt: HostRuntime) -> Result<(), Fail> {
    let four = four_levels();
    let three = three_parties()?;
    plaintext_on_a_channel(&rt, &four)?;
    plaintext_on_a_channel(&rt, &three)?;
    both_readings_refused(&rt, &four)?;
    both_readings_refused(&rt, &three)?;
    plaintext_under_an_open_key(&rt, &four)?;
    plaintext_under_an_open_key(&rt, &three)
}

// type s = level 2;
// type f = sig 2 (s);
// free c;
// new m : s . new b : f . out c (sign(m; b)) . stop
fn secret_signature_on_an_open_channel<S: Scheme>(
    rt: &impl Abort,
    s: &Setting<S>,
) -> Result<(), Fail> {
    let types = [s.open(), s.secret(), s.declared(TypeKind::Sig, 1)];
    let processes = [
        new(1, 4, 1, 0),
        new(2, 4, 2, 0),
        acts(ProcessKind::Out, 3, 4, 1, [0, 4], [0, 3, 0, 0, 0]),
        bare(ProcessKind::Stop, 3, 4, 4),
    ];
    let terms = [slot(0), slot(1), slot(2), made(TermKind::Sign, 1, 2)];
    refuses(rt, &s.scheme, listing(&types, &processes, &terms), 31, 2)
}

// type g = sig 2 (open);
// free c;
// new b : g . out c (sign(c; b)) . stop
fn open_signature_on_an_open_channel<S: Scheme>(
    rt: &impl Abort,
    s: &Setting<S>,
) -> Result<(), Fail> {
    let types = [s.open(), s.declared(TypeKind::Sig, 0)];
    let processes = [
        new(1, 3, 1, 0),
        acts(ProcessKind::Out, 2, 3, 1, [0, 4], [0, 3, 0, 0, 0]),
        bare(ProcessKind::Stop, 2, 3, 4),
    ];
    let terms = [slot(0), slot(0), slot(1), made(TermKind::Sign, 1, 2)];
    accepts(rt, &s.scheme, listing(&types, &processes, &terms))
}

#[test]
fn signature_of_a_secret_stays_secret(rt: HostRuntime) -> Result<(), Fail> {
    let four = four_levels();
    let three = three_parties()?;
    secret_signature_on_an_open_channel(&rt, &four)?;
    secret_signature_on_an_open_channel(&rt, &three)?;
    open_signature_on_an_open_channel(&rt, &four)?;
    open_signature_on_an_open_channel(&rt, &three)?;
    open_part_under_a_key_for_secrets(&rt, &FourLevels)
}

// The payload type of the key counts, and not the part: an open part fits it.
// type t = level 3;
// type f = sig 2 (t);
// free c;
// new b : f . out c (sign(c; b)) . stop
fn open_part_under_a_key_for_secrets<S: Scheme>(rt: &impl Abort, s: &S) -> Result<(), Fail> {
    let types = [level(1), level(3), declared(TypeKind::Sig, 2, 1)];
    let processes = [
        new(1, 3, 2, 0),
        acts(ProcessKind::Out, 2, 3, 1, [0, 4], [0, 3, 0, 0, 0]),
        bare(ProcessKind::Stop, 2, 3, 4),
    ];
    let terms = [slot(0), slot(0), slot(1), made(TermKind::Sign, 1, 2)];
    refuses(rt, s, listing(&types, &processes, &terms), 31, 1)
}

// 12, which all read and nobody writes, is below 0, which nobody reads or writes.
// type z = level 0;
// type q = chan 5 (z);
// type r = level 12;
// new m : r . new d : q . out d (m) . stop
fn wide_on_a_narrow_channel<S: Scheme>(rt: &impl Abort, s: &S) -> Result<(), Fail> {
    let types = [
        level(15),
        level(0),
        declared(TypeKind::Chan, 5, 1),
        level(12),
    ];
    let processes = [
        new(0, 4, 3, 0),
        new(1, 4, 2, 0),
        acts(ProcessKind::Out, 2, 4, 1, [0, 2], [0, 1, 0, 0, 0]),
        bare(ProcessKind::Stop, 2, 4, 2),
    ];
    let terms = [slot(1), slot(0)];
    accepts(rt, s, listing(&types, &processes, &terms))
}

// 0 is not below 12.
// type z = level 0;
// type r = level 12;
// type q = chan 5 (r);
// new m : z . new d : q . out d (m) . stop
fn narrow_on_a_wide_channel<S: Scheme>(rt: &impl Abort, s: &S) -> Result<(), Fail> {
    let types = [
        level(15),
        level(0),
        level(12),
        declared(TypeKind::Chan, 5, 2),
    ];
    let processes = [
        new(0, 4, 1, 0),
        new(1, 4, 3, 0),
        acts(ProcessKind::Out, 2, 4, 1, [0, 2], [0, 1, 0, 0, 0]),
        bare(ProcessKind::Stop, 2, 4, 2),
    ];
    let terms = [slot(1), slot(0)];
    refuses(rt, s, listing(&types, &processes, &terms), 31, 2)
}

// 0 is below 2.
// type s = level 2;
// type z = level 0;
// type q = chan 2 (s);
// new m : z . new d : q . out d (m) . stop
fn trusted_for_all<S: Scheme>(rt: &impl Abort, s: &S) -> Result<(), Fail> {
    let types = [level(1), level(2), level(0), declared(TypeKind::Chan, 2, 1)];
    let processes = [
        new(0, 4, 2, 0),
        new(1, 4, 3, 0),
        acts(ProcessKind::Out, 2, 4, 1, [0, 2], [0, 1, 0, 0, 0]),
        bare(ProcessKind::Stop, 2, 4, 2),
    ];
    let terms = [slot(1), slot(0)];
    accepts(rt, s, listing(&types, &processes, &terms))
}

#[test]
fn order_is_not_by_size(rt: HostRuntime) -> Result<(), Fail> {
    let two = parties(2)?;
    wide_on_a_narrow_channel(&rt, &two)?;
    narrow_on_a_wide_channel(&rt, &two)?;
    open_part_on_a_channel(&rt, &four_levels())?;
    trusted_for_all(&rt, &FourLevels)
}

use crate::settings::{Setting, four_levels, three_parties};
use crate::tables::{acts, bare, derived, listing, made, new, slot};
use crate::verdicts::refuses;
use levels::Scheme;
use rows::{ProcessKind, TermKind, TypeKind};
use std::process::Abort;
use std::test::Fail;

// type s = level 2;
// new m : s . in m (a) . stop
fn secret_as_channel<S: Scheme>(rt: &impl Abort, s: &Setting<S>) -> Result<(), Fail> {
    let types = [s.open(), s.secret()];
    let processes = [
        new(0, 3, 1, 0),
        acts(ProcessKind::In, 1, 3, 1, [0, 1], [0, 0, 0, 0, 0]),
        bare(ProcessKind::Stop, 2, 3, 1),
    ];
    let terms = [slot(0)];
    refuses(rt, &s.scheme, listing(&types, &processes, &terms), 30, 1)
}

// type s = level 2;
// type y = dec 2 (s);
// free c;
// new m : s . new d : y . out c (senc(m; d)) . stop
fn decryption_key_as_shared_key<S: Scheme>(rt: &impl Abort, s: &Setting<S>) -> Result<(), Fail> {
    let types = [s.open(), s.secret(), s.declared(TypeKind::Dec, 1)];
    let processes = [
        new(1, 4, 1, 0),
        new(2, 4, 2, 0),
        acts(ProcessKind::Out, 3, 4, 1, [0, 4], [0, 3, 0, 0, 0]),
        bare(ProcessKind::Stop, 3, 4, 4),
    ];
    let terms = [slot(0), slot(1), slot(2), made(TermKind::Senc, 1, 2)];
    refuses(rt, &s.scheme, listing(&types, &processes, &terms), 30, 2)
}

// type s = level 2;
// type w = sym 2 (s);
// free c;
// new k : w . in c (x) . verify x as (a) with k . stop
fn shared_key_verifies<S: Scheme>(rt: &impl Abort, s: &Setting<S>) -> Result<(), Fail> {
    let types = [s.open(), s.secret(), s.declared(TypeKind::Sym, 1)];
    let processes = [
        new(1, 4, 2, 0),
        acts(ProcessKind::In, 2, 4, 1, [0, 1], [0, 0, 0, 0, 0]),
        acts(ProcessKind::Verify, 3, 4, 1, [1, 2], [0, 1, 0, 0, 0]),
        bare(ProcessKind::Stop, 4, 4, 3),
    ];
    let terms = [slot(0), slot(2), slot(1)];
    refuses(rt, &s.scheme, listing(&types, &processes, &terms), 30, 2)
}

#[test]
fn another_kind_is_refused(rt: HostRuntime) -> Result<(), Fail> {
    let four = four_levels();
    let three = three_parties()?;
    secret_as_channel(&rt, &four)?;
    secret_as_channel(&rt, &three)?;
    decryption_key_as_shared_key(&rt, &four)?;
    decryption_key_as_shared_key(&rt, &three)?;
    shared_key_verifies(&rt, &four)?;
    shared_key_verifies(&rt, &three)
}

// type s = level 2;
// free c;
// new m : s . out c (m) . stop
fn secret_on_an_open_channel<S: Scheme>(rt: &impl Abort, s: &Setting<S>) -> Result<(), Fail> {
    let types = [s.open(), s.secret()];
    let processes = [
        new(1, 3, 1, 0),
        acts(ProcessKind::Out, 2, 3, 1, [0, 2], [0, 1, 0, 0, 0]),
        bare(ProcessKind::Stop, 2, 3, 2),
    ];
    let terms = [slot(0), slot(1)];
    refuses(rt, &s.scheme, listing(&types, &processes, &terms), 31, 1)
}

// An open name is no secret: the open level is not below a guarded one.
// type s = level 2;
// type q = chan 2 (s);
// free c;
// new d : q . out d (c) . stop
pub(crate) fn open_part_on_a_channel<S: Scheme>(
    rt: &impl Abort,
    s: &Setting<S>,
) -> Result<(), Fail> {
    let types = [s.open(), s.secret(), s.declared(TypeKind::Chan, 1)];
    let processes = [
        new(1, 3, 2, 0),
        acts(ProcessKind::Out, 2, 3, 1, [0, 2], [0, 1, 0, 0, 0]),
        bare(ProcessKind::Stop, 2, 3, 2),
    ];
    let terms = [slot(1), slot(0)];
    refuses(rt, &s.scheme, listing(&types, &processes, &terms), 31, 1)
}

// type s = level 2;
// type w = sym 2 (s);
// type l = sym 2 (w);
// free c;
// new m : s . new k : l . out c (senc(m; k)) . stop
fn secret_for_a_key<S: Scheme>(rt: &impl Abort, s: &Setting<S>) -> Result<(), Fail> {
    let types = [
        s.open(),
        s.secret(),
        s.declared(TypeKind::Sym, 1),
        s.declared(TypeKind::Sym, 2),
    ];
    let processes = [
        new(1, 4, 1, 0),
        new(2, 4, 3, 0),
        acts(ProcessKind::Out, 3, 4, 1, [0, 4], [0, 3, 0, 0, 0]),
        bare(ProcessKind::Stop, 3, 4, 4),
    ];
    let terms = [slot(0), slot(1), slot(2), made(TermKind::Senc, 1, 2)];
    refuses(rt, &s.scheme, listing(&types, &processes, &terms), 31, 2)
}

#[test]
fn part_that_does_not_fit_is_refused(rt: HostRuntime) -> Result<(), Fail> {
    let four = four_levels();
    let three = three_parties()?;
    secret_on_an_open_channel(&rt, &four)?;
    secret_on_an_open_channel(&rt, &three)?;
    open_part_on_a_channel(&rt, &four)?;
    open_part_on_a_channel(&rt, &three)?;
    secret_for_a_key(&rt, &four)?;
    secret_for_a_key(&rt, &three)
}

// type s = level 2;
// type q = chan 2 (s);
// new d : q . in d (a, b) . stop
fn two_variables_on_a_channel<S: Scheme>(rt: &impl Abort, s: &Setting<S>) -> Result<(), Fail> {
    let types = [s.open(), s.secret(), s.declared(TypeKind::Chan, 1)];
    let processes = [
        new(0, 3, 2, 0),
        acts(ProcessKind::In, 1, 3, 2, [0, 1], [0, 0, 0, 0, 0]),
        bare(ProcessKind::Stop, 3, 3, 1),
    ];
    let terms = [slot(0)];
    refuses(rt, &s.scheme, listing(&types, &processes, &terms), 32, 1)
}

// type s = level 2;
// type q = chan 2 (s);
// new m : s . new d : q . out d (m, m) . stop
fn two_parts_on_a_channel<S: Scheme>(rt: &impl Abort, s: &Setting<S>) -> Result<(), Fail> {
    let types = [s.open(), s.secret(), s.declared(TypeKind::Chan, 1)];
    let processes = [
        new(0, 4, 1, 0),
        new(1, 4, 2, 0),
        acts(ProcessKind::Out, 2, 4, 2, [0, 3], [0, 1, 2, 0, 0]),
        bare(ProcessKind::Stop, 2, 4, 3),
    ];
    let terms = [slot(1), slot(0), slot(0)];
    refuses(rt, &s.scheme, listing(&types, &processes, &terms), 32, 2)
}

// type s = level 2;
// type w = sym 2 (s);
// free c;
// new k : w . in c (x) . sopen x as (a, b) with k . stop
fn two_variables_under_a_key<S: Scheme>(rt: &impl Abort, s: &Setting<S>) -> Result<(), Fail> {
    let types = [s.open(), s.secret(), s.declared(TypeKind::Sym, 1)];
    let processes = [
        new(1, 4, 2, 0),
        acts(ProcessKind::In, 2, 4, 1, [0, 1], [0, 0, 0, 0, 0]),
        acts(ProcessKind::Sopen, 3, 4, 2, [1, 2], [0, 1, 0, 0, 0]),
        bare(ProcessKind::Stop, 5, 4, 3),
    ];
    let terms = [slot(0), slot(2), slot(1)];
    refuses(rt, &s.scheme, listing(&types, &processes, &terms), 32, 2)
}

#[test]
fn another_count_is_refused(rt: HostRuntime) -> Result<(), Fail> {
    let four = four_levels();
    let three = three_parties()?;
    two_variables_on_a_channel(&rt, &four)?;
    two_variables_on_a_channel(&rt, &three)?;
    two_parts_on_a_channel(&rt, &four)?;
    two_parts_on_a_channel(&rt, &three)?;
    two_variables_under_a_key(&rt, &four)?;
    two_variables_under_a_key(&rt, &three)
}

// type s = level 2;
// free c;
// new m : s . in c (v) . verify m as (a) with v . stop
fn secret_under_any_key<S: Scheme>(rt: &impl Abort, s: &Setting<S>) -> Result<(), Fail> {
    let types = [s.open(), s.secret()];
    let processes = [
        new(1, 4, 1, 0),
        acts(ProcessKind::In, 2, 4, 1, [0, 1], [0, 0, 0, 0, 0]),
        acts(ProcessKind::Verify, 3, 4, 1, [1, 2], [0, 1, 0, 0, 0]),
        bare(ProcessKind::Stop, 4, 4, 3),
    ];
    let terms = [slot(0), slot(1), slot(2)];
    refuses(rt, &s.scheme, listing(&types, &processes, &terms), 33, 2)
}

// Before 32: the key is public, and the message is not.
// type s = level 2;
// type g = sig 2 (open);
// new m : s . new b : g . verify m as (x, y) with vk(b) . stop
fn secret_under_a_key_of_another_count<S: Scheme>(
    rt: &impl Abort,
    s: &Setting<S>,
) -> Result<(), Fail> {
    let types = [s.open(), s.secret(), s.declared(TypeKind::Sig, 0)];
    let processes = [
        new(0, 4, 1, 0),
        new(1, 4, 2, 0),
        acts(ProcessKind::Verify, 2, 4, 2, [0, 3], [0, 2, 0, 0, 0]),
        bare(ProcessKind::Stop, 4, 4, 3),
    ];
    let terms = [slot(0), slot(1), derived(TermKind::Vk, 1)];
    refuses(rt, &s.scheme, listing(&types, &processes, &terms), 33, 2)
}

#[test]
fn secret_message_under_a_public_key_is_refused(rt: HostRuntime) -> Result<(), Fail> {
    let four = four_levels();
    let three = three_parties()?;
    secret_under_any_key(&rt, &four)?;
    secret_under_any_key(&rt, &three)?;
    secret_under_a_key_of_another_count(&rt, &four)?;
    secret_under_a_key_of_another_count(&rt, &three)
}

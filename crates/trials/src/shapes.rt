use crate::tables::{acts, bare, declared, derived, level, listing, made, new, slot};
use crate::verdicts::{accepts, refuses};
use levels::FourLevels;
use rows::{ProcessKind, ProcessRow, TermKind, TermRow, TypeKind, TypeRow};
use std::process::Abort;
use std::test::Fail;

// type s = level 2;
// type w = sym 2 (s);
// free c;
// new m : s . new k : w . out c (senc(m; k)) . in c (x) . stop
fn types() -> [TypeRow; 3] {
    [level(1), level(2), declared(TypeKind::Sym, 2, 1)]
}

fn processes() -> [ProcessRow; 5] {
    [
        new(1, 5, 1, 0),
        new(2, 5, 2, 0),
        acts(ProcessKind::Out, 3, 5, 1, [0, 4], [0, 3, 0, 0, 0]),
        acts(ProcessKind::In, 3, 5, 1, [4, 1], [0, 0, 0, 0, 0]),
        bare(ProcessKind::Stop, 4, 5, 5),
    ]
}

fn terms() -> [TermRow; 5] {
    [
        slot(0),
        slot(1),
        slot(2),
        made(TermKind::Senc, 1, 2),
        slot(0),
    ]
}

// Rows with another one at a place.
fn replaced<T: Copy, const N: usize>(mut rows: [T; N], at: usize, row: T) -> [T; N] {
    if let Some(old) = rows.get_mut(at) {
        *old = row;
    }
    rows
}

// With another type at a row, the listing is refused there.
fn with_type(rt: &impl Abort, at: usize, t: TypeRow) -> Result<(), Fail> {
    let types = replaced(types(), at, t);
    refuses(
        rt,
        &FourLevels,
        listing(&types, &processes(), &terms()),
        21,
        at,
    )
}

#[test]
fn type_out_of_shape_is_refused(rt: HostRuntime) -> Result<(), Fail> {
    // as it stands the listing is accepted
    accepts(&rt, &FourLevels, listing(&types(), &processes(), &terms()))?;
    // row 0 is another level
    with_type(&rt, 0, level(2))?;
    // no level
    with_type(&rt, 1, level(4))?;
    // equal to a lower row
    with_type(&rt, 1, level(1))?;
    with_type(&rt, 2, level(2))?;
    // a public and a tainted level, where a guarded one is asked; and the other way round
    with_type(&rt, 2, declared(TypeKind::Chan, 1, 1))?;
    with_type(&rt, 2, declared(TypeKind::Sig, 3, 1))?;
    with_type(&rt, 2, declared(TypeKind::Enc, 2, 1))?;
    // its own payload, and a plain level with a payload
    with_type(&rt, 2, declared(TypeKind::Sym, 2, 2))?;
    with_type(&rt, 2, declared(TypeKind::Level, 3, 1))?;
    // no payload, five of them, and one past the count
    let key = declared(TypeKind::Sym, 2, 1);
    let payload = [1, 1, 0, 0];
    with_type(&rt, 2, TypeRow { count: 0, ..key })?;
    with_type(&rt, 2, TypeRow { count: 5, ..key })?;
    with_type(&rt, 2, TypeRow { payload, ..key })
}

// With another process row, the listing is refused at a row, which may be its parent.
fn with_process(rt: &impl Abort, at: usize, p: ProcessRow, row: usize) -> Result<(), Fail> {
    let processes = replaced(processes(), at, p);
    refuses(
        rt,
        &FourLevels,
        listing(&types(), &processes, &terms()),
        22,
        row,
    )
}

#[test]
fn process_out_of_shape_is_refused(rt: HostRuntime) -> Result<(), Fail> {
    let out = ProcessKind::Out;
    // row 0 ends before the table, and a type outside the table
    with_process(&rt, 0, new(1, 4, 1, 0), 0)?;
    with_process(&rt, 0, new(1, 5, 3, 0), 0)?;
    // nothing sent, an operand outside the run, and one past the count
    with_process(&rt, 2, acts(out, 3, 5, 0, [0, 4], [0; 5]), 2)?;
    with_process(&rt, 2, acts(out, 3, 5, 1, [0, 4], [0, 4, 0, 0, 0]), 2)?;
    with_process(&rt, 2, acts(out, 3, 5, 1, [0, 4], [0, 3, 1, 0, 0]), 2)?;
    // a run that begins in the one before
    with_process(&rt, 3, acts(ProcessKind::In, 3, 5, 1, [3, 2], [0; 5]), 3)?;
    // a child with other slots or another end is the parent's fault
    with_process(&rt, 4, bare(ProcessKind::Stop, 3, 5, 5), 3)?;
    with_process(&rt, 4, bare(ProcessKind::Stop, 4, 6, 5), 3)?;
    // the last run does not end with the table
    with_process(&rt, 4, bare(ProcessKind::Stop, 4, 5, 4), 4)
}

// With another term row, the listing is refused at that row of the term table.
fn with_term(rt: &impl Abort, at: usize, t: TermRow) -> Result<(), Fail> {
    let terms = replaced(terms(), at, t);
    refuses(
        rt,
        &FourLevels,
        listing(&types(), &processes(), &terms),
        23,
        at,
    )
}

#[test]
fn term_out_of_shape_is_refused(rt: HostRuntime) -> Result<(), Fail> {
    // a slot with a key, and one that is not in scope
    with_term(&rt, 1, derived(TermKind::Slot, 1))?;
    with_term(&rt, 4, slot(3))?;
    // keys and parts that are not earlier in the run
    with_term(&rt, 2, derived(TermKind::Ek, 2))?;
    with_term(&rt, 3, made(TermKind::Senc, 3, 2))?;
    with_term(&rt, 3, made(TermKind::Senc, 1, 3))?;
    with_term(&rt, 4, derived(TermKind::Vk, 0))?;
    // an encryption of nothing
    with_term(&rt, 3, derived(TermKind::Senc, 2))
}

#[test]
fn names_are_limited(rt: HostRuntime) -> Result<(), Fail> {
    // 32 names in scope and no more, and none with the type of a derived key
    let types = [level(1), declared(TypeKind::Ver, 0, 0)];
    let none: [TermRow; 0] = [];
    let most = [bare(ProcessKind::Stop, 32, 1, 0)];
    accepts(&rt, &FourLevels, listing(&types, &most, &none))?;
    let more = [bare(ProcessKind::Stop, 33, 1, 0)];
    refuses(&rt, &FourLevels, listing(&types, &more, &none), 22, 0)?;
    let named = [
        bare(ProcessKind::Again, 0, 3, 0),
        new(0, 3, 1, 0),
        bare(ProcessKind::Stop, 1, 3, 0),
    ];
    refuses(&rt, &FourLevels, listing(&types, &named, &none), 22, 1)
}

#[test]
fn lower_number_goes_first(rt: HostRuntime) -> Result<(), Fail> {
    // types out of shape at row 2, and processes at row 0
    let types = [level(1), level(2), level(2)];
    let processes = [new(1, 2, 9, 0), bare(ProcessKind::Stop, 2, 2, 0)];
    let stray = [slot(7)];
    refuses(&rt, &FourLevels, listing(&types, &processes, &stray), 21, 2)?;
    refuses(
        &rt,
        &FourLevels,
        listing(&types[0..2], &processes, &stray),
        22,
        0,
    )
}

use crate::tables::{acts, bare, declared, level, listing, new, slot};
use crate::verdicts::{accepts, refuses};
use levels::FourLevels;
use rows::{ProcessKind, ProcessRow, TermRow, TypeKind, TypeRow};
use std::array::from_fn;
use std::process::Abort;
use std::test::Fail;

// These sizes are refused.
fn refuses_sizes<'a>(
    rt: &impl Abort,
    types: &'a [TypeRow],
    processes: &'a [ProcessRow],
    terms: &'a [TermRow],
) -> Result<(), Fail> {
    refuses(rt, &FourLevels, listing(types, processes, terms), 20, 0)
}

#[test]
fn sizes_are_limited(rt: HostRuntime) -> Result<(), Fail> {
    let types = [level(1); 65];
    let processes = [bare(ProcessKind::Stop, 0, 1, 0); 513];
    let terms = [slot(0); 2049];
    let none: [TermRow; 0] = [];
    refuses_sizes(&rt, &[], &processes[0..1], &none)?;
    refuses_sizes(&rt, &types[0..1], &[], &none)?;
    refuses_sizes(&rt, &types, &processes[0..1], &none)?;
    refuses_sizes(&rt, &types[0..1], &processes, &none)?;
    refuses_sizes(&rt, &types[0..1], &processes[0..1], &terms)?;
    accepts(
        &rt,
        &FourLevels,
        listing(&types[0..1], &processes[0..1], &none),
    )?;
    // sixty-four types are not too many, but equal
    refuses(
        &rt,
        &FourLevels,
        listing(&types[0..64], &processes[0..1], &none),
        21,
        1,
    )
}

// type s = level 2;
// type y = dec 2 (s);
// free c;
// new d : y . and then aopen c as (a) with d (or c), so many times one in another, . stop
// No test reads the rows past the stop.
fn nested(depth: u16) -> [ProcessRow; 9] {
    let end = depth.saturating_add(2);
    from_fn(|i| match i as u16 {
        0 => new(1, end, 2, 0),
        i if i > depth => bare(ProcessKind::Stop, end, end, depth.saturating_mul(2)),
        i => acts(
            ProcessKind::Aopen,
            i + 1,
            end,
            1,
            [(i - 1) * 2, 2],
            [0, 1, 0, 0, 0],
        ),
    })
}

// The message is c each time, and the key this slot.
fn messages_and_keys(key: u16) -> [TermRow; 14] {
    from_fn(|i| slot(if i % 2 == 0 { 0 } else { key }))
}

#[test]
fn seventh_aopen_is_refused(rt: HostRuntime) -> Result<(), Fail> {
    let types = [level(1), level(2), declared(TypeKind::Dec, 2, 1)];
    for key in 0..2 {
        let terms = messages_and_keys(key);
        let six = nested(6);
        accepts(&rt, &FourLevels, listing(&types, &six[0..8], &terms[0..12]))?;
        refuses(&rt, &FourLevels, listing(&types, &nested(7), &terms), 24, 7)?;
    }
    Ok(())
}

// free c;
// (four aopens and stop | four aopens and stop)
#[test]
fn aopens_beside_one_another_do_not_add_up(rt: HostRuntime) -> Result<(), Fail> {
    let processes = [
        bare(ProcessKind::Both, 1, 11, 0),
        acts(ProcessKind::Aopen, 1, 6, 1, [0, 2], [0, 1, 0, 0, 0]),
        acts(ProcessKind::Aopen, 2, 6, 1, [2, 2], [0, 1, 0, 0, 0]),
        acts(ProcessKind::Aopen, 3, 6, 1, [4, 2], [0, 1, 0, 0, 0]),
        acts(ProcessKind::Aopen, 4, 6, 1, [6, 2], [0, 1, 0, 0, 0]),
        bare(ProcessKind::Stop, 5, 6, 8),
        acts(ProcessKind::Aopen, 1, 11, 1, [8, 2], [0, 1, 0, 0, 0]),
        acts(ProcessKind::Aopen, 2, 11, 1, [10, 2], [0, 1, 0, 0, 0]),
        acts(ProcessKind::Aopen, 3, 11, 1, [12, 2], [0, 1, 0, 0, 0]),
        acts(ProcessKind::Aopen, 4, 11, 1, [14, 2], [0, 1, 0, 0, 0]),
        bare(ProcessKind::Stop, 5, 11, 16),
    ];
    let terms = [slot(0); 16];
    accepts(&rt, &FourLevels, listing(&[level(1)], &processes, &terms))
}

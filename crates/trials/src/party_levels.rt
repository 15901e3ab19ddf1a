use crate::tables::{acts, bare, declared, level, listing, made, new, slot};
use crate::verdicts::{accepts, parties, refuses};
use levels::{FourLevels, Parties, Scheme};
use rows::{ProcessKind, TermKind, TypeKind};
use samples::every_kind_of_row;
use std::process::Abort;
use std::test::Fail;

#[test]
fn other_numbers_of_parties_are_refused(rt: HostRuntime) -> Result<(), Fail> {
    for count in [0, 9, 65535] {
        let Err(fault) = Parties::new(count) else {
            return Err(Fail::new("made"));
        };
        assert_eq!(rt; fault.number(), 20);
    }
    for count in 1..=8 {
        parties(count)?;
    }
    Ok(())
}

#[test]
fn eight_parties_use_every_number(rt: HostRuntime) -> Result<(), Fail> {
    let eight = parties(8)?;
    assert_eq!(rt; eight.open(), 65535);
    assert_eq!(rt; eight.is_level(65535), true);
    assert_eq!(rt; eight.below(65280, 65535), true);
    assert_eq!(rt; eight.below(65535, 65280), false);
    assert_eq!(rt; eight.meet(257, 65535), 65281);
    sealed_among_eight(&rt, &eight)?;
    published_among_eight(&rt, &eight)
}

// Each level has one reader and one writer.
// type s = level 257;
// type w = sym 257 (s);
// free c;
// new m : s . new k : w . out c (senc(m; k)) . stop
fn sealed_among_eight<S: Scheme>(rt: &impl Abort, s: &S) -> Result<(), Fail> {
    let types = [level(65535), level(257), declared(TypeKind::Sym, 257, 1)];
    let processes = [
        new(1, 4, 1, 0),
        new(2, 4, 2, 0),
        acts(ProcessKind::Out, 3, 4, 1, [0, 4], [0, 3, 0, 0, 0]),
        bare(ProcessKind::Stop, 3, 4, 4),
    ];
    let terms = [slot(0), slot(1), slot(2), made(TermKind::Senc, 1, 2)];
    accepts(rt, s, listing(&types, &processes, &terms))
}

// The open level is 65535.
// type s = level 257;
// free c;
// new m : s . out c (m) . stop
fn published_among_eight<S: Scheme>(rt: &impl Abort, s: &S) -> Result<(), Fail> {
    let types = [level(65535), level(257)];
    let processes = [
        new(1, 3, 1, 0),
        acts(ProcessKind::Out, 2, 3, 1, [0, 2], [0, 1, 0, 0, 0]),
        bare(ProcessKind::Stop, 2, 3, 2),
    ];
    let terms = [slot(0), slot(1)];
    refuses(rt, s, listing(&types, &processes, &terms), 31, 1)
}

// Under one scheme row 0 is the open level, and under another it is not.
#[test]
fn tables_are_of_their_scheme(rt: HostRuntime) -> Result<(), Fail> {
    // a process that does nothing
    let nothing = [bare(ProcessKind::Stop, 0, 1, 0)];
    let l = every_kind_of_row().listing;
    accepts(&rt, &FourLevels, l)?;
    refuses(&rt, &parties(2)?, l, 21, 0)?;
    accepts(
        &rt,
        &parties(1)?,
        listing(&[level(3), level(0)], &nothing, &[]),
    )?;
    refuses(
        &rt,
        &parties(1)?,
        listing(&[level(3), level(4)], &nothing, &[]),
        21,
        1,
    )?;
    refuses(
        &rt,
        &parties(3)?,
        listing(&[level(63), declared(TypeKind::Chan, 59, 0)], &nothing, &[]),
        21,
        1,
    )?;
    accepts(
        &rt,
        &parties(3)?,
        listing(&[level(63), declared(TypeKind::Chan, 27, 0)], &nothing, &[]),
    )?;
    accepts(
        &rt,
        &parties(3)?,
        listing(&[level(63), declared(TypeKind::Ver, 59, 0)], &nothing, &[]),
    )
}

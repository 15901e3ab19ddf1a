use checking::check;
use levels::{Parties, Scheme};
use rows::Listing;
use std::process::Abort;
use std::test::Fail;

// The listing is accepted.
pub(crate) fn accepts<S: Scheme>(rt: &impl Abort, s: &S, l: Listing) -> Result<(), Fail> {
    assert_eq!(rt; check(s, l), Ok(()));
    Ok(())
}

// The listing is refused with this number, at this row.
// Kept: the numbers are what is reported, and the tests check them.
pub(crate) fn refuses<S: Scheme>(
    rt: &impl Abort,
    s: &S,
    l: Listing,
    number: u16,
    row: usize,
) -> Result<(), Fail> {
    let found = check(s, l).map_err(|refusal| (refusal.number(), refusal.row()));
    assert_eq!(rt; found, Err((number, row)));
    Ok(())
}

// A scheme of so many parties.
pub(crate) fn parties(count: u16) -> Result<Parties, Fail> {
    Parties::new(count).map_err(|_| Fail::new("no such number of parties"))
}

use crate::process::ProcessRow;
use crate::term::TermRow;
use crate::types::TypeRow;

/// The tables of a listing, lent.
#[derive(Clone, Copy)]
pub struct Listing<'a> {
    pub types: &'a [TypeRow],
    pub processes: &'a [ProcessRow],
    pub terms: &'a [TermRow],
}

ghost use Rattle.std.specs.Prelude.{◌≡◌, ◌+◌, ◌<◌, length, take};
ghost use Rattle.rows.specs.Processes.{row};

use rows::{Listing, ProcessRow};

// A process row, as a node of the tree that the listing's rows are to be.
#[derive(Clone, Copy)]
pub(crate) struct Node<'a> {
    pub(crate) listing: Listing<'a>,
    pub(crate) i: usize,
    pub(crate) ghost inside: { i < length listing.processes.now },
}

impl<'a> Node<'a> {
    pub(crate) fn of(listing: Listing<'a>, i: usize) -> Node<'a>
        requires { i < length listing.processes.now }
        ensures { (result.listing ≡ listing.entry) × (result.i ≡ i) }
    {
        Node { listing, i }
    }

    pub(crate) fn row(&self) -> ProcessRow
        ensures { result ≡ row self.now.listing.processes.now self.now.i }
    {
        self.listing.processes[self.i]
    }

    pub(crate) fn rows_above(&self) -> &'a [ProcessRow]
        ensures { result.now ≡ take self.now.i self.now.listing.processes.now }
    {
        &self.listing.processes[..self.i]
    }

    // The number of the next row.
    pub(crate) fn next(&self) -> usize
        ensures { result ≡ self.now.i + 1 }
    {
        self.rows_above().len() + 1
    }
}

ghost use Rattle.std.specs.Prelude.{◌≡◌, true, false, MatchOption};
ghost use Rattle.rows.specs.Processes.{row};
ghost use Rattle.rows.specs.Tables.{tables};
ghost use Rattle.shape.specs.Processes.{nameable, ty_ok, process_count_ok, operand_count, operands_ok, run_start, run_ok, child_ok, one_ok, two_ok, family_ok, process_ok, processes_shape};

use crate::fault::ShapeFault;
use crate::first::all_fit;
use crate::node::Node;
use crate::numbers::{is_one_to_four, numbers_fit};
use rows::{Listing, ProcessKind, ProcessRow, TypeKind, TypeRow};

// A name may have every kind of type but the two of derived keys.
fn is_nameable(kind: TypeKind) -> bool
    ensures { result ≡ nameable kind }
{
    !matches!(kind, TypeKind::Enc | TypeKind::Ver)
}

// New has a type that a name may have, and no other row has one.
fn type_fits(types: &[TypeRow], p: ProcessRow) -> bool
    ensures { result ≡ ty_ok types.now p p.kind }
{
    if p.kind == ProcessKind::New {
        types
            .get(p.ty as usize)
            .is_some_and(|ty| is_nameable(ty.kind))
    } else {
        p.ty == 0
    }
}

fn count_fits(p: ProcessRow) -> bool
    ensures { result ≡ process_count_ok p.count p.kind }
{
    match p.kind {
        ProcessKind::Out
        | ProcessKind::In
        | ProcessKind::Sopen
        | ProcessKind::Aopen
        | ProcessKind::Verify => { is_one_to_four(p.count) }
        ProcessKind::Stop
        | ProcessKind::New
        | ProcessKind::Both
        | ProcessKind::Again
        | ProcessKind::If => { p.count == 0 }
    }
}

// How many operands the row has.
fn operands_of(p: ProcessRow) -> usize
    ensures { result ≡ operand_count p.count p.kind }
{
    match p.kind {
        ProcessKind::Stop | ProcessKind::New | ProcessKind::Both | ProcessKind::Again => 0,
        ProcessKind::Out => p.count as usize + 1,
        ProcessKind::In => 1,
        ProcessKind::If | ProcessKind::Sopen | ProcessKind::Aopen | ProcessKind::Verify => 2,
    }
}

fn operands_fit(p: ProcessRow) -> bool
    ensures { result ≡ operands_ok p }
{
    numbers_fit(&p.operands, operands_of(p), p.terms as usize)
}

impl Node<'_> {
    // Where the run has to begin: where the run before it ends.
    fn run_begins(&self) -> usize
        ensures { result ≡ run_start self.now.listing.processes.now self.now.i }
    {
        match self.rows_above().last() {
            Some(before) => before.first as usize + before.terms as usize,
            None => 0,
        }
    }

    // Runs follow one another without gaps, the last to the table's end; a row without operands has none.
    fn run_fits(&self) -> bool
        ensures { result ≡ run_ok (tables self.now.listing) self.now.i }
    {
        let p = self.row();
        let ends = p.first as usize + p.terms as usize;
        p.first as usize == self.run_begins()
            && (operands_of(p) != 0 || p.terms == 0)
            && (self.next() != self.listing.processes.len() || ends == self.listing.terms.len())
    }

    // Row `j`, if it is in the table with the slots of this row and those that it adds.
    fn child(&self, j: usize) -> Option<ProcessRow>
        ensures { MatchOption result
            (child_ok self.now.listing.processes.now self.now.i j ≡ false)
            (λ child. (child_ok self.now.listing.processes.now self.now.i j ≡ true)
            × (child ≡ row self.now.listing.processes.now j)) }
    {
        let p = self.row();
        let slots = p.slots as usize + p.added() as usize;
        match self.listing.processes.get(j) {
            Some(child) if child.slots as usize == slots => Some(*child),
            _ => None,
        }
    }

    fn one_child(&self) -> bool
        ensures { result ≡ one_ok self.now.listing.processes.now self.now.i }
    {
        let end = self.row().end;
        self.child(self.next())
            .is_some_and(|child| child.end == end)
    }

    fn two_children(&self) -> bool
        ensures { result ≡ two_ok self.now.listing.processes.now self.now.i }
    {
        let Some(first) = self.child(self.next()) else {
            return false;
        };
        let end = self.row().end;
        self.child(first.end as usize)
            .is_some_and(|second| second.end == end)
    }

    fn family_fits(&self) -> bool
        ensures { result
            ≡ family_ok self.now.listing.processes.now self.now.i (row self.now.listing.processes.now self.now.i).kind }
    {
        let p = self.row();
        match p.kind {
            ProcessKind::Stop => p.end as usize == self.next(),
            ProcessKind::Both | ProcessKind::If => self.two_children(),
            ProcessKind::Out
            | ProcessKind::In
            | ProcessKind::New
            | ProcessKind::Again
            | ProcessKind::Sopen
            | ProcessKind::Aopen
            | ProcessKind::Verify => self.one_child(),
        }
    }

    fn fits(&self) -> bool
        ensures { result ≡ process_ok (tables self.now.listing) self.now.i }
    {
        let p = self.row();
        type_fits(self.listing.types, p)
            && count_fits(p)
            && operands_fit(p)
            && self.run_fits()
            && p.slots <= 32
            && self.family_fits()
            && (self.i != 0 || p.end as usize == self.listing.processes.len())
    }
}

pub(crate) fn processes_in_shape(l: Listing) -> Result<(), ShapeFault>
    ensures { result ≡ processes_shape (tables l.entry) }
{
    all_fit(l.processes.len(), |i| Node::of(l, i).fits()).map_err(ShapeFault::Processes)
}

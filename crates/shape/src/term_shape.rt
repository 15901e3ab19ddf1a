ghost use Rattle.std.specs.Prelude.{◌≡◌};
ghost use Rattle.rows.specs.Processes.{run_of};
ghost use Rattle.shape.specs.Terms.{part_ok, parts_ok, term_ok, run_shape, terms_shape};

use crate::fault::ShapeFault;
use crate::first::all_fit;
use crate::numbers::{is_one_to_four, numbers_fit};
use rows::{Listing, ProcessRow, TermKind, TermRow};

// A key is an earlier row of the run.
fn key_fits(key: u16, place: usize) -> bool
    ensures { result ≡ part_ok place key }
{
    (key as usize) < place && key < 2048
}

// Parts are earlier rows of the run.
fn parts_fit(t: TermRow, place: usize) -> bool
    ensures { result ≡ parts_ok place t }
{
    is_one_to_four(t.count)
        && numbers_fit(&t.parts, t.count as usize, place)
        && numbers_fit(&t.parts, t.count as usize, 2048)
}

// The shape of the term row at a place of its run, with so many slots in scope.
fn term_fits(t: TermRow, place: usize, slots: u16) -> bool
    ensures { result ≡ term_ok slots place t t.kind }
{
    match t.kind {
        TermKind::Slot => t.slot < slots
            && t.count == 0
            && t.key == 0
            && numbers_fit(&t.parts, 0, 0),
        TermKind::Ek | TermKind::Vk => {
            t.slot == 0 && t.count == 0 && key_fits(t.key, place) && numbers_fit(&t.parts, 0, 0)
        }
        TermKind::Senc | TermKind::Aenc | TermKind::Sign => {
            t.slot == 0 && key_fits(t.key, place) && parts_fit(t, place)
        }
    }
}

// The shape of a process row's run.
fn run_in_shape(terms: &[TermRow], p: ProcessRow) -> Result<(), ShapeFault>
    ensures { result ≡ run_shape p.slots p.first 0 (run_of terms.now p) }
{
    let run = p.run(terms);
    let from = p.first as usize;
    all_fit(run.len(), |j| term_fits(run[j], j, p.slots)).map_err(|j| ShapeFault::Terms(from + j))
}

#[tactic(auto, using(crate::proofs::RunRest::runs_step))]
pub(crate) fn terms_in_shape(l: Listing) -> Result<(), ShapeFault>
    ensures { result ≡ terms_shape l.entry.terms.now l.entry.processes.now }
{
    for p in l.processes {
        run_in_shape(l.terms, *p)?;
    }
    Ok(())
}

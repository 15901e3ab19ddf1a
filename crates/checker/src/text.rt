ghost use Rattle.std.specs.Prelude.{◌≡◌};
ghost use Rattle.levels.specs.Means.{means};
ghost use Rattle.checker.specs.Text.{place_noted, text_verdict, Never20Or23};

use crate::fault::CheckFault;
use checking::{Refusal, check};
use levels::Scheme;
use reader::read;
use rows::{Listing, ProcessRow, TermRow, TypeRow};
use shape::ShapeFault;

// The place noted for the process row at fault, or 0 where the fault is of no process row.
// Kept: 0 and no `Option`, by a rule of the project: a fault names plain places.
fn place_of(refusal: Refusal, places: &[u16]) -> usize
    ensures { result ≡ place_noted places.now refusal }
{
    let row = match refusal {
        Refusal::Shape(ShapeFault::Processes(row) | ShapeFault::Depth(row)) => row,
        Refusal::Shape(ShapeFault::Size | ShapeFault::Types(_) | ShapeFault::Terms(_)) => return 0,
        Refusal::Typing(_, row) => row,
    };
    places.get(row).copied().map_or(0, usize::from)
}

/// Checks a listing's text under a scheme: the number of its process rows, or the first fault.
pub fn check_text<S: Scheme>(s: &S, text: &[u8]) -> Result<usize, CheckFault>
    ensures says { result ≡ text_verdict (means S.Scheme s.now) text.now }
    ensures never_20_or_23 { Never20Or23 result }
{
    // Kept: arrays and their counts, by a rule of the project: tables are lent as slices with plain
    // counts, and a library takes no heap.
    let mut types = [TypeRow::default(); 64];
    let mut processes = [ProcessRow::default(); 512];
    let mut terms = [TermRow::default(); 2048];
    let mut places = [0u16; 512];
    let counts = read(
        text,
        s.open(),
        &mut types,
        &mut processes,
        &mut terms,
        &mut places,
    )?;
    let l = Listing {
        types: &types[..counts.types as usize],
        processes: &processes[..counts.processes as usize],
        terms: &terms[..counts.terms as usize],
    };
    match check(s, l) {
        Ok(()) => Ok(counts.processes as usize),
        Err(refusal) => Err(CheckFault::Refused(refusal, place_of(refusal, &places))),
    }
}

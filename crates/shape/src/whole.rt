ghost use Rattle.std.specs.Prelude.{◌≡◌, Ok};
ghost use Rattle.levels.specs.Means.{means};
ghost use Rattle.rows.specs.Tables.{tables};
ghost use Rattle.shape.specs.Whole.{sized, shape};
ghost use Rattle.shape.specs.Tree.{Tree};

use crate::depth::depth_in_shape;
use crate::fault::ShapeFault;
use crate::process_shape::processes_in_shape;
use crate::term_shape::terms_in_shape;
use crate::type_shape::types_in_shape;
use levels::Scheme;
use rows::Listing;

// The tables are there and within their limits.
fn sizes_fit(l: Listing) -> bool
    ensures { result ≡ sized (tables l.entry) }
{
    (1..=64).contains(&l.types.len())
        && (1..=512).contains(&l.processes.len())
        && l.terms.len() <= 2048
}

/// The shape test: sizes first, then types, process rows, term rows and depth, lowest row first.
/// The process rows of tables in shape are a tree.
#[tactic(auto, unfolding(crate::specs::Whole::shape))]
pub fn in_shape<S: Scheme>(s: &S, l: Listing) -> Result<(), ShapeFault>
    ensures says { result ≡ shape (means S.Scheme s.now) (tables l.entry) }
    ensures tree { result ≡ Ok tt → Tree (tables l.entry).processes }
{
    if !sizes_fit(l) {
        return Err(ShapeFault::Size);
    }
    types_in_shape(s, l.types)?;
    processes_in_shape(l)?;
    terms_in_shape(l)?;
    depth_in_shape(l)
}

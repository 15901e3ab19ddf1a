ghost use Rattle.std.specs.Prelude.{◌≡◌};
ghost use Rattle.shape.specs.Depth.{enclosing, shallow, depth_shape};

use crate::fault::ShapeFault;
use crate::first::all_fit;
use crate::node::Node;
use rows::{Listing, ProcessKind};

impl Node<'_> {
    // The aopen rows on the way down to the row, without itself.
    fn aopens_above(&self) -> usize
        ensures { result ≡ enclosing self.now.listing.processes.now self.now.i }
    {
        self.rows_above()
            .iter()
            .filter(|above| above.kind == ProcessKind::Aopen && self.i < above.end as usize)
            .count()
    }

    fn is_shallow(&self) -> bool
        ensures { result ≡ shallow self.now.listing.processes.now self.now.i }
    {
        self.row().kind != ProcessKind::Aopen || self.aopens_above() < 6
    }
}

pub(crate) fn depth_in_shape(l: Listing) -> Result<(), ShapeFault>
    ensures { result ≡ depth_shape l.entry.processes.now }
{
    all_fit(l.processes.len(), |i| Node::of(l, i).is_shallow()).map_err(ShapeFault::Depth)
}

//! The berths that a chart's edges name.
ghost use Rattle.std.specs.Prelude.{◌≡◌, IfOk};
ghost use Rattle.distance_report.specs.Berths.{ends_at, berth_is_named, named_berths};

use std::alloc::{AllocError, Global};
use walks::Edge;

/// Whether the edge begins or ends at the berth.
fn ends_at(edge: &Edge, berth: u8) -> bool
    ensures { result ≡ ends_at edge.now berth }
{
    edge.left == berth || edge.right == berth
}

/// Whether some edge begins or ends at the berth.
fn is_named(edges: &[Edge], berth: u8) -> bool
    ensures { result ≡ berth_is_named edges.now berth }
{
    edges.iter().any(|edge| ends_at(edge, berth))
}

/// The berths where an edge begins or ends, in order.
pub(crate) fn berths_of(heap: Global, edges: &[Edge]) -> Result<Vec<u8>, AllocError>
    ensures { IfOk result (λ berths. berths.items ≡ named_berths edges.now) }
{
    (0..32)
        .filter(|berth| is_named(edges, *berth))
        .collect(heap)
}

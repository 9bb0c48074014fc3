//! The lengths of single steps between berths.
ghost use Rattle.std.specs.Prelude.{◌≡◌, length};
ghost use Rattle.walks.specs.Walks.{IsBerth};
ghost use Rattle.walks.specs.Tables.{row_of, with_entry, with_length, EdgeLaid, Direct, Within};

use crate::edge::Edge;
use crate::lengths::{BERTHS, Row, Rows};
use crate::shorter::shorter_of;

/// Writes a length to a berth into the row of the berth that it is from, unless a shorter one stands there.
pub(crate) fn lay_length(row: &mut Row, to: usize, minutes: u64)
    requires { IsBerth to }
    ensures laid { row.new ≡ with_entry row.old to minutes }
    ensures wide { length row.old ≡ 32 }
{
    row[to] = Some(shorter_of(row[to], minutes));
}

/// Writes a length between two berths, both ways, unless a shorter one stands there.
fn lay_both_ways(lengths: &mut Rows, one: usize, other: usize, minutes: u64)
    requires { IsBerth one × IsBerth other }
    ensures laid { lengths.new ≡ with_length (with_length lengths.old one other minutes) other one minutes }
    ensures wide { (length (row_of lengths.old one) ≡ 32) × (length (row_of (with_length lengths.old one other minutes) other) ≡ 32) }
{
    lay_length(&mut lengths[one], other, minutes);
    lay_length(&mut lengths[other], one, minutes);
}

/// Lays an edge into a table of lengths, each way that it can be run; one with an end that is no berth is left out.
fn lay_edge(lengths: &mut Rows, edge: Edge)
    ensures laid { EdgeLaid edge lengths.old lengths.new }
    ensures short { Within 65535 lengths.old → Within 65535 lengths.new }
{
    let left = usize::from(edge.left);
    let right = usize::from(edge.right);
    if left < BERTHS && right < BERTHS {
        lay_both_ways(lengths, left, right, u64::from(edge.length));
    }
}

/// The least length of a single step from each berth to each.
pub(crate) fn direct_lengths(edges: &[Edge]) -> Rows
    ensures direct { Direct edges.now result }
    ensures short { Within 65535 result }
{
    let mut lengths = [[None; BERTHS]; BERTHS];
    for edge in edges {
        lay_edge(&mut lengths, *edge);
    }
    lengths
}

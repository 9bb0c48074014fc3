//! The lengths of whole walks from those of single steps: ways by each berth are tried in turn.
ghost use Rattle.std.specs.Prelude.{◌^◌, List};
ghost use Rattle.walks.specs.declared.edge.Edge.{Edge};
ghost use Rattle.walks.specs.Walks.{IsBerth};
ghost use Rattle.walks.specs.Tables.{Direct, RowTried, RowWithin, Stands, TableOf, Tried, Within};

use crate::direct::lay_length;
use crate::lengths::{BERTHS, Row, Rows};
use crate::shorter::shorter_by_way;

/// Tries the ways by berth `by` from the berth of a row: `onward` is the row of `by`.
fn try_row(row: &mut Row, by: usize, onward: &Row)
    requires { IsBerth by × RowWithin (2 ^ 62) row.old × RowWithin (2 ^ 62) onward.now }
    ensures { RowTried by onward.now row.old row.new }
{
    let Some(first) = row[by] else {
        return;
    };
    for (to, length) in row.iter_mut().enumerate() {
        *length = shorter_by_way(first, onward[to], *length);
    }
}

/// Tries the ways by berth `by` from every berth. They leave the row of `by` itself as it is.
fn try_ways(lengths: &mut Rows, by: usize)
    requires { IsBerth by × Within (2 ^ 62) lengths.old }
    ensures { Tried by 32 lengths.old lengths.new }
{
    let onward = lengths[by];
    for row in lengths.iter_mut() {
        try_row(row, by, &onward);
    }
}

/// Writes length 0 from each berth to itself.
fn stand_still(lengths: &mut Rows)
    ensures { Stands 32 lengths.old lengths.new }
{
    for (berth, row) in lengths.iter_mut().enumerate() {
        lay_length(row, berth, 0);
    }
}

/// Takes the least lengths of single steps to those of walks.
pub(crate) fn settle(lengths: &mut Rows)
    requires { Within 65535 lengths.old }
    ensures { (es : List Edge) → Direct es lengths.old → TableOf es lengths.new }
{
    stand_still(lengths);
    // By number: each round reads the row of `by` and writes every row.
    for by in 0..BERTHS {
        try_ways(lengths, by);
    }
}

//! The table of the least lengths of walks, made and read.
ghost use Rattle.std.specs.Prelude.{◌≡◌};
ghost use Rattle.walks.specs.Tables.{TableOf, length_between};

use crate::direct::direct_lengths;
use crate::edge::Edge;
use crate::lengths::Rows;
use crate::rounds::settle;

/// The least length of a walk from each berth to each.
#[derive(Drop)]
pub struct LengthTable {
    lengths: Rows,
}

/// The least lengths of walks over `edges`.
pub fn least_lengths(edges: &[Edge]) -> LengthTable
    ensures { TableOf edges.now result.lengths }
{
    let mut lengths = direct_lengths(edges);
    settle(&mut lengths);
    LengthTable { lengths }
}

impl LengthTable {
    /// The least length of a walk, or `None` where there is none or a number is no berth.
    pub fn between(&self, from: u8, to: u8) -> Option<u64>
        ensures { result ≡ length_between self.now.lengths from to }
    {
        *self.lengths.get(usize::from(from))?.get(usize::from(to))?
    }
}

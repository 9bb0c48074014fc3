//! A finished chart.
ghost use Rattle.std.specs.Prelude.{◌≡◌};
ghost use Rattle.walks.specs.Tables.{TableOf, length_between};
ghost use Rattle.chart.specs.Charts.{Answers};

use crate::drawn::DrawnChart;
use crate::laid::LaidEdges;
use walks::{Edge, LengthTable, least_lengths};

/// A finished chart: it answers distances and takes no edge. It keeps the edges that it was drawn
/// from, so that it can be opened again.
#[derive(Drop)]
pub struct FinishedChart {
    edges: LaidEdges,
    lengths: LengthTable,
    ghost closed: { ∥ TableOf edges.list.items lengths.lengths ∥₁ },
}

impl DrawnChart {
    /// Finishes the chart.
    pub fn close(self) -> FinishedChart
        ensures { result.edges ≡ self.edges }
    {
        let DrawnChart { edges } = self;
        let lengths = least_lengths(edges.list.as_slice());
        FinishedChart { edges, lengths }
    }
}

impl FinishedChart {
    // A drawn chart shows its edges by the same words, since the two are two types, so that neither passes for the other.

    /// The edges in the order in which they were laid.
    pub fn edges(&self) -> &[Edge]
        ensures { result.now ≡ self.now.edges.list.items }
    {
        self.edges.list.as_slice()
    }

    /// What the table has for the way between two numbers.
    #[tactic(auto, using(crate::proofs::Distances::answer_short))]
    fn minutes_between(&self, from: u8, to: u8) -> Option<u32>
        ensures { result ≡ length_between self.now.lengths.lengths from to }
    {
        u32::try_from(self.lengths.between(from, to)?).ok()
    }

    /// The distance in minutes: the least total length over all walks along edges, or None where
    /// there is no walk, as for a number that is no berth.
    pub fn distance(&self, from: u8, to: u8) -> Option<u32>
        ensures { Answers self.now.edges.list.items self.now.lengths.lengths from to result }
    {
        self.minutes_between(from, to)
    }

    /// Opens the chart again, with all its edges.
    pub fn reopen(self) -> DrawnChart
        ensures { result.edges ≡ self.edges }
    {
        let FinishedChart { edges, lengths: _ } = self;
        DrawnChart { edges }
    }
}

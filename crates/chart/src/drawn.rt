//! A chart being drawn.
ghost use Rattle.std.specs.Prelude.{◌≡◌, [], IfOk};
ghost use Rattle.sheet.specs.Says.{Reads};
ghost use Rattle.chart.specs.Edges.{edge_rules};
ghost use Rattle.chart.specs.Charts.{Lays};

use crate::edges::{EdgesSheet, MOST_EDGES};
use crate::laid::LaidEdges;
use faults::Fault;
use sheet::{Listing, admit, list_sheet};
use std::alloc::{AllocError, Global};
use walks::Edge;

/// A chart being drawn: it takes edges and answers no distance. Room for all its edges is reserved
/// when it is made, so that laying one never fails for want of memory.
#[derive(Drop)]
pub struct DrawnChart {
    pub(crate) edges: LaidEdges,
}

/// What an edges sheet gives: the chart of the lines before the first faulty one, and the fault. A `Listing` has loose
/// records, and the type of the chart says more of its edges.
#[derive(Drop)]
pub struct Drawing {
    pub chart: DrawnChart,
    pub fault: Option<Fault>,
}

impl DrawnChart {
    /// A chart without edges.
    pub fn new(heap: Global) -> Result<DrawnChart, AllocError>
        ensures { IfOk result (λ chart. chart.edges.list.items ≡ []) }
    {
        let list = Vec::with_capacity(heap, MOST_EDGES)?;
        let edges = LaidEdges { list };
        Ok(DrawnChart { edges })
    }

    /// The chart that an edges sheet draws.
    pub fn read(heap: Global, sheet: &[u8]) -> Result<Drawing, AllocError>
        ensures { IfOk result (λ d. Reads edge_rules 200 sheet.now d.chart.edges.list.items d.fault) }
    {
        let Listing { records, fault } = list_sheet(heap, &EdgesSheet, sheet)?;
        let edges = LaidEdges { list: records };
        let chart = DrawnChart { edges };
        Ok(Drawing { chart, fault })
    }

    /// The edges in the order in which they were laid.
    pub fn edges(&self) -> &[Edge]
        ensures { result.now ≡ self.now.edges.list.items }
    {
        self.edges.list.as_slice()
    }

    /// Lays an edge by hand. It is refused as the edges sheet would refuse it on the edge's line.
    pub fn lay(&mut self, edge: Edge) -> Result<(), Fault>
        ensures { Lays self.old.edges.list.items edge result self.new.edges.list.items }
    {
        let numbers = [
            u64::from(edge.number),
            u64::from(edge.left),
            u64::from(edge.right),
            u64::from(edge.length),
        ];
        let new = admit(&EdgesSheet, self.edges(), MOST_EDGES, edge.line, &numbers)?;
        self.edges.list.push_reserved(new);
        Ok(())
    }
}

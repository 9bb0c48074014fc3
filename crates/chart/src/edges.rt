//! The edges sheet: a line has an edge's number, its two berths and its length in minutes.
ghost use Rattle.chart.specs.Edges.{edge_rules};
ghost use Rattle.std.proofs.Common.{rules};

use faults::{Layer, Refusal};
use sheet::SheetKind;
use walks::Edge;

/// A chart has at most so many edges.
pub(crate) const MOST_EDGES: usize = 200;

/// The kind of the edges sheet: at most 200 edges, of which none joins a berth to itself.
#[derive(Clone, Copy)]
pub struct EdgesSheet;

impl SheetKind for EdgesSheet {
    type Record = Edge;

    ghost rules = { λ _. edge_rules };

    ghost at_most_eight_fields = { Prim.search rules };

    fn layer(&self) -> Layer {
        Layer::Edges
    }

    fn takes(&self, fields: usize) -> bool {
        fields == 4
    }

    fn made(&self, line: usize, numbers: &[u64]) -> Option<Edge> {
        let [number, left, right, minutes] = *numbers else {
            return None;
        };
        if left > 31 || right > 31 || minutes < 1 || minutes > 600 {
            return None;
        }
        Some(Edge {
            number: u16::try_from(number).ok()?,
            left: u8::try_from(left).ok()?,
            right: u8::try_from(right).ok()?,
            length: u16::try_from(minutes).ok()?,
            line,
        })
    }

    fn clash(&self, _earlier: &[Edge], new: &Edge) -> Option<Refusal> {
        (new.left == new.right).then_some(Refusal::JoinsItself)
    }

    fn most(&self) -> usize {
        MOST_EDGES
    }

    fn least(&self) -> usize {
        0
    }
}

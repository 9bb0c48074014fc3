//! The edges that are laid on a chart.
ghost use Rattle.std.specs.Prelude.{◌≡◌, ◌≤◌, true, vec_capacity};
ghost use Rattle.std.specs.List.{list_all};
ghost use Rattle.chart.specs.Edges.{is_lawful};

use walks::Edge;

/// Edges in the order in which they were laid, each as the edges sheet allows it, with room reserved for
/// all that a chart may have.
#[derive(Drop)]
pub(crate) struct LaidEdges {
    pub(crate) list: Vec<Edge>,
    ghost room: { 200 ≤ vec_capacity list },
    ghost lawful: { list_all is_lawful list.items ≡ true },
}

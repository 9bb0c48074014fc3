//! Costs that the search can sum.
ghost use Rattle.std.proofs.Props.{props};
ghost use Rattle.matchings.specs.Rowed.{Bounded};

use super::costs::Costs;

/// A day whose links all go to later trips, and whose costs lie within the bounds of the tariffs.
#[derive(Drop)]
pub(crate) struct BoundedCosts<'c, C: Costs> {
    /// What the day's trips cost.
    pub(crate) costs: &'c C,
    ghost bounded: { Bounded C.Value.Rowed.count (C.Costs.net costs.now) } by { Prim.hlevel props },
}

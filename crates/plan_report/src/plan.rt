//! The whole plan.
ghost use Rattle.std.specs.Prelude.{◌≡◌, Some};
ghost use Rattle.std.specs.Fmt.{WritesOnOk};
ghost use Rattle.plan_report.specs.Lines.{plan_text};

use rows::Rowed;
use std::fmt;
use trips::Trip;

/// A plan to be printed: its successor table and the trips at the table's positions, the number of its
/// duties, and what they cost.
#[derive(Clone, Copy)]
pub struct PlanLines<'s, 't, V> {
    pub(crate) successors: &'s [u16],
    pub(crate) trips: &'t [Trip],
    pub(crate) duties: u16,
    pub(crate) cost: V,
}

impl<'s, 't, V: Rowed> PlanLines<'s, 't, V> {
    /// The plan with these values.
    pub fn new(
        successors: &'s [u16],
        trips: &'t [Trip],
        duties: u16,
        cost: V,
    ) -> PlanLines<'s, 't, V>
        ensures successors { result.successors.now ≡ successors.now }
        ensures trips { result.trips.now ≡ trips.now }
        ensures duties { result.duties ≡ duties }
        ensures cost { result.cost ≡ cost }
    {
        PlanLines {
            successors,
            trips,
            duties,
            cost,
        }
    }

    /// The lines of the plan.
    fn put_plan<W: fmt::Write>(&self, f: &mut fmt::Formatter<W>) -> fmt::Result
        ensures { WritesOnOk W.Write.write_str_gives f.old result (plan_text self.now.successors.now self.now.trips.now self.now.duties (V.Rowed.row self.now.cost)) f.new }
    {
        self.put_duties(f)?;
        self.put_last(f)
    }
}

impl<V: Rowed> fmt::Display for PlanLines<'_, '_, V> {
    ghost output = { λ p. Some (plan_text p.successors.now p.trips.now p.duties (V.Rowed.row p.cost)) };

    fn fmt<W: fmt::Write>(&self, f: &mut fmt::Formatter<W>) -> fmt::Result {
        self.put_plan(f)
    }
}

//! The lines of the duties.
ghost use Rattle.std.specs.Prelude.{◌≡◌};
ghost use Rattle.std.specs.Fmt.{WritesOnOk};
ghost use Rattle.duties.specs.Tables.{duty_of, duties_of};
ghost use Rattle.plan_report.specs.Lines.{number_at, trips_text, duty_text, duties_text};

use crate::plan::PlanLines;
use duty_list::{Duties, DutyTrips};
use std::fmt;

impl<V> PlanLines<'_, '_, V> {
    /// The number of the trip at a position; 0 past the last trip.
    fn number_at(&self, position: usize) -> u16
        ensures { result ≡ number_at self.now.trips.now position }
    {
        self.trips.get(position).map_or(0, |trip| trip.number)
    }

    /// The numbers of the trips of a duty, each after a space.
    fn put_trips<W: fmt::Write>(&self, f: &mut fmt::Formatter<W>, first: usize) -> fmt::Result
        ensures { WritesOnOk W.Write.write_str_gives f.old result (trips_text self.now.trips.now (duty_of self.now.successors.now first)) f.new }
    {
        for position in DutyTrips::new(self.successors, first) {
            write!(f, " {}", self.number_at(position))?;
        }
        Ok(())
    }

    /// The line of a duty, with its number.
    fn put_duty<W: fmt::Write>(
        &self,
        f: &mut fmt::Formatter<W>,
        number: usize,
        first: usize,
    ) -> fmt::Result
        ensures { WritesOnOk W.Write.write_str_gives f.old result (duty_text self.now.trips.now number (duty_of self.now.successors.now first)) f.new }
    {
        write!(f, "duty {number}:")?;
        self.put_trips(f, first)?;
        writeln!(f)
    }

    /// A line for each duty, numbered from 1.
    pub(crate) fn put_duties<W: fmt::Write>(&self, f: &mut fmt::Formatter<W>) -> fmt::Result
        ensures { WritesOnOk W.Write.write_str_gives f.old result (duties_text self.now.trips.now 1 (duties_of self.now.successors.now)) f.new }
    {
        for (number, first) in (1..).zip(Duties::new(self.successors)) {
            self.put_duty(f, number, first)?;
        }
        Ok(())
    }
}

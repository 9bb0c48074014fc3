//! The line below the duties.
ghost use Rattle.std.specs.Prelude.{◌≡◌, ◌+◌, ◌^◌, ◌≤◌, MatchResult};
ghost use Rattle.std.specs.Fmt.{WritesOnOk};
ghost use Rattle.plan_report.specs.Lines.{place_text, places_text, last_text};

use crate::plan::PlanLines;
use rows::Rowed;
use std::fmt;

/// One place of a row, after a space.
fn put_place<W: fmt::Write>(f: &mut fmt::Formatter<W>, number: i64) -> fmt::Result
    ensures { WritesOnOk W.Write.write_str_gives f.old result (place_text number) f.new }
{
    write!(f, " {number}")
}

/// The place after `i`; an error past the last that can be counted.
fn next_place(i: usize) -> Result<usize, fmt::Error>
    ensures { MatchResult result (λ next. next ≡ i + 1) (λ _. 2 ^ 64 ≤ i + 1) }
{
    i.checked_add(1).ok_or(fmt::Error)
}

impl<V: Rowed> PlanLines<'_, '_, V> {
    /// The places of the cost, each after a space.
    fn put_cost<W: fmt::Write>(&self, f: &mut fmt::Formatter<W>) -> fmt::Result
        ensures { WritesOnOk W.Write.write_str_gives f.old result (places_text (V.Rowed.row self.now.cost)) f.new }
    {
        // By an index, since a row is asked for one place at a time.
        let mut i = 0;
        while let Some(number) = self.cost.place(i) {
            put_place(f, number)?;
            i = next_place(i)?;
        }
        Ok(())
    }

    /// The number of duties and their cost.
    pub(crate) fn put_last<W: fmt::Write>(&self, f: &mut fmt::Formatter<W>) -> fmt::Result
        ensures { WritesOnOk W.Write.write_str_gives f.old result (last_text self.now.duties (V.Rowed.row self.now.cost)) f.new }
    {
        write!(f, "hulls {} cost", self.duties)?;
        self.put_cost(f)?;
        writeln!(f)
    }
}

//! The table of distances.
ghost use Rattle.std.specs.Prelude.{Some};
ghost use Rattle.std.specs.Fmt.{WritesOnOk};
ghost use Rattle.walks.specs.Tables.{length_between};
ghost use Rattle.distance_report.specs.Lines.{heading_text, cells_text, row_text, rows_text, table_text};

use crate::cells::{put_berths, put_cell};
use chart::FinishedChart;
use std::fmt;

/// The distances of a chart between some berths, to be printed as a table.
#[derive(Clone, Copy)]
pub(crate) struct DistanceTable<'c, 'b> {
    pub(crate) chart: &'c FinishedChart,
    pub(crate) berths: &'b [u8],
}

impl DistanceTable<'_, '_> {
    /// The line above the table, with the berths.
    fn put_heading<W: fmt::Write>(&self, f: &mut fmt::Formatter<W>) -> fmt::Result
        ensures { WritesOnOk W.Write.write_str_gives f.old result (heading_text self.now.berths.now) f.new }
    {
        write!(f, "from / to")?;
        put_berths(f, self.berths)?;
        writeln!(f)
    }

    /// The distances from a berth to each of the berths.
    fn put_cells<W: fmt::Write>(&self, f: &mut fmt::Formatter<W>, from: u8) -> fmt::Result
        ensures { WritesOnOk W.Write.write_str_gives f.old result (cells_text (length_between self.now.chart.now.lengths.lengths from) self.now.berths.now) f.new }
    {
        for to in self.berths {
            put_cell(f, self.chart.distance(from, *to))?;
        }
        Ok(())
    }

    /// The line of the distances from a berth.
    fn put_row<W: fmt::Write>(&self, f: &mut fmt::Formatter<W>, from: u8) -> fmt::Result
        ensures { WritesOnOk W.Write.write_str_gives f.old result (row_text (length_between self.now.chart.now.lengths.lengths) self.now.berths.now from) f.new }
    {
        write!(f, "{from}")?;
        self.put_cells(f, from)?;
        writeln!(f)
    }

    /// A line for each of the berths.
    fn put_rows<W: fmt::Write>(&self, f: &mut fmt::Formatter<W>) -> fmt::Result
        ensures { WritesOnOk W.Write.write_str_gives f.old result (rows_text (length_between self.now.chart.now.lengths.lengths) self.now.berths.now self.now.berths.now) f.new }
    {
        for from in self.berths {
            self.put_row(f, *from)?;
        }
        Ok(())
    }
}

impl fmt::Display for DistanceTable<'_, '_> {
    ghost output = { λ t. Some (table_text (length_between t.chart.now.lengths.lengths) t.berths.now) };

    fn fmt<W: fmt::Write>(&self, f: &mut fmt::Formatter<W>) -> fmt::Result {
        self.put_heading(f)?;
        self.put_rows(f)
    }
}

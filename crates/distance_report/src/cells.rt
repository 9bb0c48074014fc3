//! The parts of the table of distances that need no chart.
ghost use Rattle.std.specs.Fmt.{WritesOnOk};
ghost use Rattle.distance_report.specs.Lines.{tabbed, cell_text};

use std::fmt;

/// Numbers of berths, each after a tab.
pub(crate) fn put_berths<W: fmt::Write>(f: &mut fmt::Formatter<W>, berths: &[u8]) -> fmt::Result
    ensures { WritesOnOk W.Write.write_str_gives f.old result (tabbed berths.now) f.new }
{
    for berth in berths {
        write!(f, "\t{berth}")?;
    }
    Ok(())
}

/// A distance, or a dash where there is none.
pub(crate) fn put_cell<W: fmt::Write>(
    f: &mut fmt::Formatter<W>,
    distance: Option<u32>,
) -> fmt::Result
    ensures { WritesOnOk W.Write.write_str_gives f.old result (cell_text distance) f.new }
{
    match distance {
        Some(minutes) => write!(f, "\t{minutes}"),
        None => write!(f, "\t-"),
    }
}

//! The whole text for an edges sheet.
ghost use Rattle.std.specs.Prelude.{◌≡◌, IfOk, string_bytes};
ghost use Rattle.walks.specs.Tables.{length_between};
ghost use Rattle.distance_report.specs.Lines.{distances_text, Reports};

use crate::berths::berths_of;
use crate::table::DistanceTable;
use chart::{Drawing, DrawnChart, FinishedChart};
use std::alloc::{AllocError, Global};

/// How many edges a chart has, and the distances between their berths.
fn table_lines(heap: Global, chart: &FinishedChart) -> Result<String, AllocError>
    ensures { IfOk result (λ text. string_bytes text ≡ distances_text chart.now.edges.list.items (length_between chart.now.lengths.lengths)) }
{
    let berths = berths_of(heap, chart.edges())?;
    let count = chart.edges().len();
    let table = DistanceTable {
        chart,
        berths: berths.as_slice(),
    };
    format!(in heap;
        "edges read: {count}\nleast distances in minutes (- where there is no way):\n{table}"
    )
}

/// The lines to print for an edges sheet: how many edges it has and the least distances between their
/// berths, or the first fault.
pub fn distance_lines(heap: Global, sheet: &[u8]) -> Result<String, AllocError>
    ensures { IfOk result (λ text. Reports sheet.now (string_bytes text)) }
{
    let Drawing { chart, fault } = DrawnChart::read(heap, sheet)?;
    match fault {
        Some(fault) => fault.line(heap),
        None => table_lines(heap, &chart.close()),
    }
}

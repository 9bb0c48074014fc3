//! Reading the two sheets.
ghost use Rattle.tow_inputs.specs.Sheets.{SheetsSay};

use crate::sound::TowSheets;
use faults::Fault;
use tow_sheets::{Link, read_charges, read_links};

/// Reads the charges sheet and then the links sheet, the links into a table from its first entry on, up
/// to the first fault of either.
pub fn read_sheets(charges: &[u8], links: &[u8], table: &mut [Link]) -> Result<TowSheets, Fault>
    ensures { SheetsSay charges.now links.now table.old result table.new }
{
    let charges = read_charges(charges)?;
    let filling = read_links(links, table);
    let sheets = TowSheets {
        charges,
        links: filling.count,
    };
    filling.fault.map_or(Ok(sheets), Err)
}

//! What a whole sheet gives to a table that the caller provides.
ghost use Rattle.sheet.specs.Says.{Fills};

use crate::kind::SheetKind;
use crate::reading::take_sheet;
use crate::store::Front;
use faults::Fault;

/// How many records of the lines before the first faulty one stand in the table, and the fault.
#[derive(Clone, Copy)]
pub struct Filling {
    // A count and no slice: the table is lent, and the contract says what it holds past the records, too.
    pub count: usize,
    pub fault: Option<Fault>,
}

/// What `fill_sheet` does. A step of its own, so that what `fill_sheet` promises of a whole sheet is proved of its call.
fn fill_table<K: SheetKind>(kind: &K, sheet: &[u8], table: &mut [K::Record]) -> Filling
    ensures { Fills (K.SheetKind.rules kind.now) sheet.now table.old result.count result.fault table.new }
{
    let room = kind.most().min(table.len());
    let mut front = Front { table, count: 0 };
    let fault = take_sheet(kind, sheet, room, &mut front).err();
    Filling {
        count: front.count,
        fault,
    }
}

/// Reads a whole sheet into a table, from its first entry on. A table shorter than the sheet's records
/// is refused as a sheet with too many of them; the entries past the records stay as they were.
pub fn fill_sheet<K: SheetKind>(kind: &K, sheet: &[u8], table: &mut [K::Record]) -> Filling
    ensures { Fills (K.SheetKind.rules kind.now) sheet.now table.old result.count result.fault table.new }
{
    fill_table(kind, sheet, table)
}

//! Whether a record may be kept.
ghost use Rattle.std.specs.Prelude.{◌≡◌, ℕ, ◌<◌, List, length, MatchResult, OnOk};
ghost use Rattle.sheet.specs.Says.{Admits, Rejects};
ghost use Rattle.sheet.specs.Reading.{admitted, judged};
ghost use Rattle.sheet.specs.Rows.{Holds};

use crate::kind::SheetKind;
use crate::row::Row;
use faults::{Fault, Refusal};

// The kind, the earlier records, the room and the line are passed one by one: a type for them would be made anew at each
// line, to be taken apart at once.

/// The record of a line's numbers after the records before it, or the first refusal: a number out of
/// range, no room for the record, what the kind itself forbids.
fn admit_numbers<K: SheetKind>(
    kind: &K,
    earlier: &[K::Record],
    room: usize,
    line: usize,
    numbers: &[u64],
) -> Result<K::Record, Fault>
    ensures { result ≡ admitted (K.SheetKind.rules kind.now) room line earlier.now numbers.now }
{
    let layer = kind.layer();
    let new = kind
        .made(line, numbers)
        .ok_or(layer.fault(Refusal::OutOfRange, line))?;
    if earlier.len() >= room {
        return Err(layer.fault(Refusal::RecordCount, 0));
    }
    match kind.clash(earlier, &new) {
        Some(refusal) => Err(layer.fault(refusal, line)),
        None => Ok(new),
    }
}

/// The record of a line's numbers after the records before it, as a sheet would take it or refuse it.
// `admit_numbers` says it step by step, for `judge` too; this function says it in the words of the format.
pub fn admit<K: SheetKind>(
    kind: &K,
    earlier: &[K::Record],
    room: usize,
    line: usize,
    numbers: &[u64],
) -> Result<K::Record, Fault>
    ensures { MatchResult result (Admits (K.SheetKind.rules kind.now) room line earlier.now numbers.now) (Rejects (K.SheetKind.rules kind.now) room line earlier.now numbers.now) }
{
    admit_numbers(kind, earlier, room, line, numbers)
}

/// The record of a line's fields after the records before it, or the first refusal.
pub(crate) fn judge<K: SheetKind>(
    kind: &K,
    earlier: &[K::Record],
    room: usize,
    line: usize,
    row: &Row,
) -> Result<K::Record, Fault>
    ensures room { OnOk result (length earlier.now < room) }
    ensures value { (fs : List (List ℕ)) → Holds row.now fs → result ≡ judged (K.SheetKind.rules kind.now) room line earlier.now fs }
{
    let layer = kind.layer();
    if !kind.takes(row.len()) {
        return Err(layer.fault(Refusal::FieldCount, line));
    }
    let numbers = row.numbers().ok_or(layer.fault(Refusal::NotANumber, line))?;
    admit_numbers(kind, earlier, room, line, numbers.as_slice())
}

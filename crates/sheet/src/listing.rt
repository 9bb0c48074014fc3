//! What a whole sheet gives.
ghost use Rattle.std.specs.Prelude.{◌≡◌, ◌≤◌, IfOk, vec_capacity};
ghost use Rattle.sheet.specs.Says.{Reads};

use crate::kind::SheetKind;
use crate::reading::take_sheet;
use faults::Fault;
use std::alloc::{AllocError, Global};

/// The records of the lines before the first faulty one, in the sheet's order, and the fault.
#[derive(Drop)]
pub struct Listing<R> {
    pub records: Vec<R>,
    pub fault: Option<Fault>,
}

/// Reads a whole sheet. Room for all records that the kind allows is reserved first, so want of memory
/// can come at no other moment; the records keep that room.
pub fn list_sheet<K: SheetKind>(
    heap: Global,
    kind: &K,
    sheet: &[u8],
) -> Result<Listing<K::Record>, AllocError>
    ensures reads { IfOk result (λ l. Reads (K.SheetKind.rules kind.now) (K.SheetKind.rules kind.now).most sheet.now l.records.items l.fault) }
    ensures room { IfOk result (λ l. (K.SheetKind.rules kind.now).most ≤ vec_capacity l.records) }
{
    let room = kind.most();
    let mut records = Vec::with_capacity(heap, room)?;
    let fault = take_sheet(kind, sheet, room, &mut records).err();
    Ok(Listing { records, fault })
}

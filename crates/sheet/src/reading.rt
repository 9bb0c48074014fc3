//! Reading a whole sheet into a store.
ghost use Rattle.std.specs.Prelude.{◌≡◌, ℕ, ◌≤◌, List, []};
ghost use Rattle.std.specs.Result.{result_err};
ghost use Rattle.tokens.specs.Text.{lines};
ghost use Rattle.sheet.specs.Reading.{judged, lacking, read_lines, read_sheet};
ghost use Rattle.sheet.specs.Rows.{Holds};
ghost use Rattle.sheet.specs.Spaces.{with_all, Takes};

use crate::admission::judge;
use crate::kind::SheetKind;
use crate::row::Row;
use crate::store::Store;
use faults::{Fault, MOST_BYTES, Refusal};
use tokens::{Reader, Token};

/// Takes the record of a line with these fields into the store, or says why it is refused.
fn take_line<K: SheetKind, S: Store<K::Record>>(
    kind: &K,
    store: &mut S,
    room: usize,
    line: usize,
    row: &Row,
) -> Result<(), Fault>
    requires { room ≤ (S.Store.space store.old).room }
    ensures { (fs : List (List ℕ)) → Holds row.now fs → Takes (judged (K.SheetKind.rules kind.now) room line (S.Store.space store.old).kept fs) (S.Store.space store.old) result (S.Store.space store.new) }
{
    let new = judge(kind, store.so_far(), room, line, row)?;
    store.keep(new);
    Ok(())
}

/// What is amiss at the end of a sheet with this many records: too few of them, or nothing.
fn end_sheet<K: SheetKind>(kind: &K, count: usize) -> Result<(), Fault>
    ensures { result_err result ≡ lacking (K.SheetKind.rules kind.now) count }
{
    if count < kind.least() {
        return Err(kind.layer().fault(Refusal::RecordCount, 0));
    }
    Ok(())
}

/// Takes the records of a sheet's lines into the store, up to the first fault.
fn take_lines<K: SheetKind, S: Store<K::Record>>(
    kind: &K,
    sheet: &[u8],
    room: usize,
    store: &mut S,
) -> Result<(), Fault>
    requires { ((S.Store.space store.old).kept ≡ []) × (room ≤ (S.Store.space store.old).room) }
    ensures kept { S.Store.space store.new ≡ with_all (S.Store.space store.old) (read_lines (K.SheetKind.rules kind.now) room 1 [] (lines sheet.now)).0 }
    ensures fault { result_err result ≡ (read_lines (K.SheetKind.rules kind.now) room 1 [] (lines sheet.now)).1 }
{
    let mut row = Row::new();
    for token in Reader::new(sheet) {
        match token {
            Token::Field { text, .. } => row.put(text),
            Token::LineEnd { line } => {
                take_line(kind, store, room, line, &row)?;
                row = Row::new();
            }
        }
    }
    end_sheet(kind, store.so_far().len())
}

/// Takes the records of a sheet into the store, up to the first fault.
pub(crate) fn take_sheet<K: SheetKind, S: Store<K::Record>>(
    kind: &K,
    sheet: &[u8],
    room: usize,
    store: &mut S,
) -> Result<(), Fault>
    requires { ((S.Store.space store.old).kept ≡ []) × (room ≤ (S.Store.space store.old).room) }
    ensures kept { S.Store.space store.new ≡ with_all (S.Store.space store.old) (read_sheet (K.SheetKind.rules kind.now) room sheet.now).0 }
    ensures fault { result_err result ≡ (read_sheet (K.SheetKind.rules kind.now) room sheet.now).1 }
{
    if sheet.len() > MOST_BYTES {
        return Err(kind.layer().fault(Refusal::InputTooLong, 0));
    }
    take_lines(kind, sheet, room, store)
}

//! What the charges sheet gives.
use std::alloc::Global;
use std::process::Abort;
use std::test::Fail;
use tow_sheets::{Charges, read_charges};

/// Sees that the sheet is refused, and how that shows.
fn refuses(rt: &impl Abort, heap: Global, sheet: &[u8], shown: &str) -> Result<(), Fail> {
    let Err(fault) = read_charges(sheet) else {
        return Err(Fail::new("the sheet was read"));
    };
    assert_eq!(rt; fault.to_string(heap)?.as_str(), shown);
    Ok(())
}

/// Sees that the sheet gives these charges.
fn gives(rt: &impl Abort, sheet: &[u8], out: u32, home: u32, fee: u32) {
    assert_eq!(rt; read_charges(sheet), Ok(Charges { out, home, fee }));
}

#[test]
fn one_record(rt: HostRuntime) {
    gives(&rt, b"1000; 1000; 5000\n", 1000, 1000, 5000);
    gives(
        &rt,
        b"# out; home; fee\n0;1000000000;1000000000",
        0,
        1000000000,
        1000000000,
    );
    gives(&rt, b"1000000000;0;0", 1000000000, 0, 0);
}

#[test]
fn refused_charges(rt: HostRuntime) -> Result<(), Fail> {
    let heap = rt.alloc();
    refuses(&rt, heap, b"", "refused 5 charges 0")?;
    refuses(&rt, heap, b"# nothing\n", "refused 5 charges 0")?;
    refuses(&rt, heap, b"1;2;3\n4;5;6\n", "refused 5 charges 0")?;
    refuses(&rt, heap, b"1;2;3\n4;5\n", "refused 2 charges 2")?;
    refuses(&rt, heap, b"1;2;3\n4;5;x\n", "refused 3 charges 2")?;
    refuses(&rt, heap, b"1;2;3\n4;5;1000000001\n", "refused 4 charges 2")?;
    refuses(&rt, heap, b"1;2\n", "refused 2 charges 1")?;
    refuses(&rt, heap, b"1000000001;2;3\n", "refused 4 charges 1")?;
    refuses(&rt, heap, b"1;1000000001;3\n", "refused 4 charges 1")?;
    refuses(&rt, heap, b"1;2;1000000001\n", "refused 4 charges 1")
}

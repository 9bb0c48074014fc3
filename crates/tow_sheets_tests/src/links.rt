//! What the links sheet leaves in a table.
use std::alloc::Global;
use std::fmt::Write;
use std::process::Abort;
use std::test::Fail;
use tow_sheets::{Link, read_links};

/// What stands in a table before a sheet is read into it.
const OLD: Link = Link {
    number: 7,
    tail: 7,
    head: 7,
    lower: 7,
    upper: 7,
    cost: 7,
};

/// Sees that so many records are read into a table of three, and how the fault shows.
fn reads(
    rt: &impl Abort,
    heap: Global,
    sheet: &[u8],
    count: usize,
    shown: &str,
) -> Result<(), Fail> {
    let mut table = [OLD; 3];
    let filling = read_links(sheet, &mut table);
    assert_eq!(rt; filling.count, count);
    for link in table.iter().skip(count) {
        assert_eq!(rt; *link, OLD);
    }
    match filling.fault {
        None => assert_eq!(rt; "", shown),
        Some(fault) => assert_eq!(rt; fault.to_string(heap)?.as_str(), shown),
    }
    Ok(())
}

#[test]
fn links_kept(rt: HostRuntime) -> Result<(), Fail> {
    let heap = rt.alloc();
    reads(&rt, heap, b"", 0, "")?;
    reads(&rt, heap, b"1; 5; 9; 10; 60; 700\n", 1, "")?;
    reads(
        &rt,
        heap,
        b"1;5;9;10;60;700\n1;9;5;0;0;0\n2;5;10;20160;20160;1000000000\n",
        3,
        "",
    )?;
    reads(
        &rt,
        heap,
        b"1;5;9;10;60;700\n2;5;9;0;0;0\n",
        1,
        "refused 7 links 2",
    )?;
    reads(
        &rt,
        heap,
        b"1;1;2;0;0;0\n1;1;3;0;0;0\n1;1;4;0;0;0\n1;1;5;0;0;0\n",
        3,
        "refused 5 links 0",
    )?;
    reads(
        &rt,
        heap,
        b"1;1;2;0;0;0\n1;1;3;0;0;0\n1;1;4;0;0;0\n1;1;4;0;0;0\n",
        3,
        "refused 5 links 0",
    )?;
    reads(
        &rt,
        heap,
        b"1;1;2;0;0;0\n1;1;3;0;0;0\n1;1;4;0;0;0\n1;1;0;0;0;0\n",
        3,
        "refused 4 links 4",
    )
}

#[test]
fn ranges(rt: HostRuntime) -> Result<(), Fail> {
    let heap = rt.alloc();
    reads(&rt, heap, b"65535;65535;1;20160;20160;1000000000", 1, "")?;
    reads(&rt, heap, b"65536;5;9;10;60;700", 0, "refused 4 links 1")?;
    reads(&rt, heap, b"1;0;9;10;60;700", 0, "refused 4 links 1")?;
    reads(&rt, heap, b"1;65536;9;10;60;700", 0, "refused 4 links 1")?;
    reads(&rt, heap, b"1;5;0;10;60;700", 0, "refused 4 links 1")?;
    reads(&rt, heap, b"1;5;65536;10;60;700", 0, "refused 4 links 1")?;
    reads(&rt, heap, b"1;5;9;61;60;700", 0, "refused 4 links 1")?;
    reads(&rt, heap, b"1;5;9;10;20161;700", 0, "refused 4 links 1")?;
    reads(&rt, heap, b"1;5;9;10;60;1000000001", 0, "refused 4 links 1")?;
    reads(&rt, heap, b"1;5;9;10;60", 0, "refused 2 links 1")?;
    reads(&rt, heap, b"1;5;9;10;60;700;0", 0, "refused 2 links 1")?;
    reads(&rt, heap, b"1;5;9;10;60;a", 0, "refused 3 links 1")
}

#[test]
fn what_a_record_holds(rt: HostRuntime) {
    let mut table = [OLD; 1];
    let filling = read_links(b"1; 5; 9; 10; 60; 700\n", &mut table);
    assert_eq!(rt; filling.count, 1);
    let held = Link {
        number: 1,
        tail: 5,
        head: 9,
        lower: 10,
        upper: 60,
        cost: 700,
    };
    assert_eq!(rt; table[0], held);
}

/// A sheet of so many links.
fn sheet_of(heap: Global, links: u32) -> Result<String, Fail> {
    let mut sheet = String::new(heap);
    for n in 0..links {
        let tail = n + 1;
        write!(sheet, "{n};{tail};1;0;9;5\n")?;
    }
    Ok(sheet)
}

#[test]
fn most_links(rt: HostRuntime) -> Result<(), Fail> {
    let heap = rt.alloc();
    let mut table = vec![in heap; OLD; 2001]?;
    let full = sheet_of(heap, 2000)?;
    let filling = read_links(full.as_str().as_bytes(), table.as_mut_slice());
    assert_eq!(rt; filling.count, 2000);
    assert!(rt; filling.fault.is_none());
    let over = sheet_of(heap, 2001)?;
    let filling = read_links(over.as_str().as_bytes(), table.as_mut_slice());
    assert_eq!(rt; filling.count, 2000);
    assert!(rt; filling.fault.is_some());
    Ok(())
}

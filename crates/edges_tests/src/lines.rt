//! What is printed for edges sheets.
use distance_report::distance_lines;
use std::alloc::Global;
use std::fmt::Write;
use std::process::Abort;
use std::test::Fail;

/// Sees that these lines are printed for the sheet.
fn prints(rt: &impl Abort, heap: Global, sheet: &[u8], lines: &str) -> Result<(), Fail> {
    let printed = distance_lines(heap, sheet)?;
    assert_eq!(rt; printed.as_str(), lines);
    Ok(())
}

/// What is printed for a sheet without edges.
const NONE: &str =
    "edges read: 0\nleast distances in minutes (- where there is no way):\nfrom / to\n";

/// What is printed for one edge of ten minutes between berths 0 and 1.
const ONE: &str =
    "edges read: 1\nleast distances in minutes (- where there is no way):\nfrom / to\t0\t1\n0\t0\t10\n1\t10\t0\n";

#[test]
fn no_edges(rt: HostRuntime) -> Result<(), Fail> {
    let heap = rt.alloc();
    prints(&rt, heap, b"", NONE)?;
    prints(&rt, heap, b"# a comment", NONE)?;
    prints(&rt, heap, b"# one\n# another; with; fields; in it\n", NONE)
}

#[test]
fn one_edge(rt: HostRuntime) -> Result<(), Fail> {
    let heap = rt.alloc();
    prints(&rt, heap, b"1;0;1;10", ONE)?;
    prints(&rt, heap, b"1;0;1;10\n", ONE)?;
    prints(&rt, heap, b"#\n  1  ;0; 1;   10   \n#", ONE)?;
    prints(&rt, heap, b"65535;0000000000;1;0000000010\n", ONE)?;
    prints(&rt, heap, b"1;1;0;10\n", ONE)
}

#[test]
fn wrong_field_counts(rt: HostRuntime) -> Result<(), Fail> {
    let heap = rt.alloc();
    prints(&rt, heap, b"\n", "refused 2 edges 1\n")?;
    prints(&rt, heap, b"1;0;1;10\n\n", "refused 2 edges 2\n")?;
    prints(&rt, heap, b"  # no comment\n", "refused 2 edges 1\n")?;
    prints(&rt, heap, b"# one\n1;0;1\n", "refused 2 edges 2\n")?;
    prints(&rt, heap, b"1;0;1;10;\n", "refused 2 edges 1\n")?;
    prints(
        &rt,
        heap,
        b"1;0;1;10;0;0;0;0;0;0;0;0\n",
        "refused 2 edges 1\n",
    )?;
    prints(&rt, heap, b"x;99;99\n", "refused 2 edges 1\n")
}

#[test]
fn not_digits(rt: HostRuntime) -> Result<(), Fail> {
    let heap = rt.alloc();
    prints(&rt, heap, b"1;0;1;\n", "refused 3 edges 1\n")?;
    prints(&rt, heap, b"1;0;1;00000000010\n", "refused 3 edges 1\n")?;
    prints(&rt, heap, b"1;0;1;\t10\n", "refused 3 edges 1\n")?;
    prints(&rt, heap, b"1;0;1;10\r\n", "refused 3 edges 1\n")?;
    prints(&rt, heap, b"1;0;1;1 0\n", "refused 3 edges 1\n")?;
    prints(&rt, heap, b"1;0;1;-1\n", "refused 3 edges 1\n")?;
    prints(&rt, heap, b"1;0;1;\xc3\xa4\n", "refused 3 edges 1\n")?;
    prints(&rt, heap, b"99999;0;1;\xff\n", "refused 3 edges 1\n")?;
    prints(&rt, heap, b"1;0;1;/:\n", "refused 3 edges 1\n")
}

#[test]
fn out_of_range(rt: HostRuntime) -> Result<(), Fail> {
    let heap = rt.alloc();
    prints(&rt, heap, b"65536;0;1;10\n", "refused 4 edges 1\n")?;
    prints(&rt, heap, b"1;32;1;10\n", "refused 4 edges 1\n")?;
    prints(&rt, heap, b"1;0;32;10\n", "refused 4 edges 1\n")?;
    prints(&rt, heap, b"1;0;1;0\n", "refused 4 edges 1\n")?;
    prints(&rt, heap, b"1;0;1;601\n", "refused 4 edges 1\n")?;
    prints(&rt, heap, b"1;0;1;9999999999\n", "refused 4 edges 1\n")?;
    prints(&rt, heap, b"1;5;5;601\n", "refused 4 edges 1\n")
}

#[test]
fn ends_of_ranges(rt: HostRuntime) -> Result<(), Fail> {
    let heap = rt.alloc();
    prints(
        &rt,
        heap,
        b"0;31;30;1\n",
        "edges read: 1\nleast distances in minutes (- where there is no way):\nfrom / to\t30\t31\n30\t0\t1\n31\t1\t0\n",
    )?;
    prints(
        &rt,
        heap,
        b"65535;0;31;600\n",
        "edges read: 1\nleast distances in minutes (- where there is no way):\nfrom / to\t0\t31\n0\t0\t600\n31\t600\t0\n",
    )
}

#[test]
fn joins_itself(rt: HostRuntime) -> Result<(), Fail> {
    let heap = rt.alloc();
    prints(
        &rt,
        heap,
        b"1;0;1;10\n2;5;5;10\n3;x\n",
        "refused 6 edges 2\n",
    )?;
    prints(&rt, heap, b"1;0;0;1", "refused 6 edges 1\n")
}

#[test]
fn the_shorter_edge_counts(rt: HostRuntime) -> Result<(), Fail> {
    let heap = rt.alloc();
    prints(
        &rt,
        heap,
        b"1;0;1;10\n1;0;1;10\n",
        "edges read: 2\nleast distances in minutes (- where there is no way):\nfrom / to\t0\t1\n0\t0\t10\n1\t10\t0\n",
    )?;
    prints(
        &rt,
        heap,
        b"1;0;1;12\n2;1;0;10\n3;0;1;11\n",
        "edges read: 3\nleast distances in minutes (- where there is no way):\nfrom / to\t0\t1\n0\t0\t10\n1\t10\t0\n",
    )
}

#[test]
fn ways_and_no_way(rt: HostRuntime) -> Result<(), Fail> {
    let heap = rt.alloc();
    prints(
        &rt,
        heap,
        b"1;0;1;10\n2;1;2;15\n3;0;2;30\n",
        "edges read: 3\nleast distances in minutes (- where there is no way):\nfrom / to\t0\t1\t2\n0\t0\t10\t25\n1\t10\t0\t15\n2\t25\t15\t0\n",
    )?;
    prints(
        &rt,
        heap,
        b"1;0;1;10\n2;3;4;5\n",
        "edges read: 2\nleast distances in minutes (- where there is no way):\nfrom / to\t0\t1\t3\t4\n0\t0\t10\t-\t-\n1\t10\t0\t-\t-\n3\t-\t-\t0\t5\n4\t-\t-\t5\t0\n",
    )
}

#[test]
fn most_bytes(rt: HostRuntime) -> Result<(), Fail> {
    let heap = rt.alloc();
    let full = vec![in heap; b'#'; 60000]?;
    prints(&rt, heap, full.as_slice(), NONE)?;
    let long = vec![in heap; b'#'; 60001]?;
    prints(&rt, heap, long.as_slice(), "refused 1 edges 0\n")?;
    let feeds = vec![in heap; b'\n'; 60001]?;
    prints(&rt, heap, feeds.as_slice(), "refused 1 edges 0\n")
}

/// A sheet of so many edges between berths 0 and 1.
fn sheet_of(heap: Global, edges: u32) -> Result<String, Fail> {
    let mut sheet = String::new(heap);
    for n in 0..edges {
        write!(sheet, "{n};0;1;10\n")?;
    }
    Ok(sheet)
}

#[test]
fn most_edges(rt: HostRuntime) -> Result<(), Fail> {
    let heap = rt.alloc();
    let full = sheet_of(heap, 200)?;
    prints(
        &rt,
        heap,
        full.as_str().as_bytes(),
        "edges read: 200\nleast distances in minutes (- where there is no way):\nfrom / to\t0\t1\n0\t0\t10\n1\t10\t0\n",
    )?;
    let mut over = sheet_of(heap, 201)?;
    prints(&rt, heap, over.as_str().as_bytes(), "refused 5 edges 0\n")?;
    let mut faulty = sheet_of(heap, 200)?;
    faulty.push_str("200;0;32;10\n")?;
    prints(
        &rt,
        heap,
        faulty.as_str().as_bytes(),
        "refused 4 edges 201\n",
    )?;
    let mut joined = sheet_of(heap, 200)?;
    joined.push_str("200;5;5;10\n")?;
    prints(&rt, heap, joined.as_str().as_bytes(), "refused 5 edges 0\n")
}

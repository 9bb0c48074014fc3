//! What tapes give.
use faults::Fault;
use std::alloc::Global;
use std::fmt::Write;
use std::iter;
use std::process::Abort;
use std::test::Fail;
use tape::{Command, TapeReader};

/// Writes what is handed on behind what was handed on before: as text, since a short line then says what
/// is expected of many commands and the fault after them.
fn show(text: &mut String, item: Result<Command, Fault>) -> Result<(), Fail> {
    match item {
        Ok(
            Command::Add {
                number,
                start,
                departure,
                end,
                arrival,
            },
        ) => write!(text, "add {number} {start} {departure} {end} {arrival}. ")?,
        Ok(Command::Withdraw { number }) => write!(text, "withdraw {number}. ")?,
        Ok(Command::Limit { limit }) => write!(text, "limit {limit}. ")?,
        Ok(Command::Plan) => text.push_str("plan. ")?,
        Err(fault) => write!(text, "{fault}. ")?,
    }
    Ok(())
}

/// Sees that this is handed on of the tape.
fn gives(rt: &impl Abort, heap: Global, tape: &[u8], all: &str) -> Result<(), Fail> {
    let mut text = String::new(heap);
    for item in TapeReader::new(tape) {
        show(&mut text, item)?;
    }
    assert_eq!(rt; text.as_str(), all);
    Ok(())
}

#[test]
fn each_command(rt: HostRuntime) -> Result<(), Fail> {
    let heap = rt.alloc();
    gives(&rt, heap, b"", "")?;
    gives(&rt, heap, b"P", "plan. ")?;
    gives(&rt, heap, b"L\x07", "limit 7. ")?;
    gives(&rt, heap, b"W\x01\x02", "withdraw 258. ")?;
    gives(
        &rt,
        heap,
        b"A\x01\x02\x03\x04\x05\x06\x07\x08",
        "add 258 3 1029 6 1800. ",
    )
}

#[test]
fn ends_of_ranges(rt: HostRuntime) -> Result<(), Fail> {
    let heap = rt.alloc();
    gives(&rt, heap, b"L\x00L\xff", "limit 0. limit 255. ")?;
    gives(
        &rt,
        heap,
        b"W\x00\x00W\x00\x01W\x01\x00W\xff\xff",
        "withdraw 0. withdraw 1. withdraw 256. withdraw 65535. ",
    )?;
    gives(
        &rt,
        heap,
        b"A\x00\x00\x00\x00\x00\x00\x00\x00A\xff\xff\xff\xff\xff\xff\xff\xff",
        "add 0 0 0 0 0. add 65535 255 65535 255 65535. ",
    )
}

#[test]
fn operands_that_look_like_letters(rt: HostRuntime) -> Result<(), Fail> {
    let heap = rt.alloc();
    gives(&rt, heap, b"WAPP", "withdraw 16720. plan. ")?;
    gives(&rt, heap, b"LLL", "limit 76. refused 25 tape 2. ")?;
    gives(
        &rt,
        heap,
        b"AAAAAAAAAL\x00",
        "add 16705 65 16705 65 16705. limit 0. ",
    )
}

#[test]
fn unknown_letters(rt: HostRuntime) -> Result<(), Fail> {
    let heap = rt.alloc();
    let others = b"@BKMOQVXawlp0 \n\x00\xff";
    for letter in others {
        gives(&rt, heap, &[*letter], "refused 24 tape 0. ")?;
    }
    Ok(())
}

#[test]
fn operands_cut_short(rt: HostRuntime) -> Result<(), Fail> {
    let heap = rt.alloc();
    let add = b"A\x01\x02\x03\x04\x05\x06\x07";
    for end in 1..=add.len() {
        gives(&rt, heap, &add[..end], "refused 25 tape 0. ")?;
    }
    gives(&rt, heap, b"W", "refused 25 tape 0. ")?;
    gives(&rt, heap, b"W\x01", "refused 25 tape 0. ")?;
    gives(&rt, heap, b"L", "refused 25 tape 0. ")?;
    gives(&rt, heap, b"PL", "plan. refused 25 tape 1. ")
}

#[test]
fn faults_in_the_middle(rt: HostRuntime) -> Result<(), Fail> {
    let heap = rt.alloc();
    gives(&rt, heap, b"P\nP", "plan. refused 24 tape 1. ")?;
    gives(
        &rt,
        heap,
        b"L\x05W\x00\x09?P",
        "limit 5. withdraw 9. refused 24 tape 5. ",
    )?;
    gives(
        &rt,
        heap,
        b"A\x00\x01\x00\x00\x02\x00\x00\x03PPA\x00\x01\x00",
        "add 1 0 2 0 3. plan. plan. refused 25 tape 11. ",
    )
}

/// Sees that so many plans are handed on of the tape, and nothing else.
fn gives_plans(rt: &impl Abort, tape: &[u8], plans: usize) {
    assert!(rt; TapeReader::new(tape).eq(iter::repeat_n(Ok(Command::Plan), plans)));
}

#[test]
fn most_bytes(rt: HostRuntime) -> Result<(), Fail> {
    let heap = rt.alloc();
    let full = vec![in heap; b'P'; 60000]?;
    gives_plans(&rt, full.as_slice(), 60000);
    let long = vec![in heap; b'P'; 60001]?;
    gives(&rt, heap, long.as_slice(), "refused 1 tape 0. ")?;
    let unknown = vec![in heap; b'?'; 60001]?;
    gives(&rt, heap, unknown.as_slice(), "refused 1 tape 0. ")
}

//! Reading a whole tape.
ghost use Rattle.std.specs.Prelude.{◌≡◌, ◌≤◌, min, [], length, IfOk, vec_capacity};
ghost use Rattle.tape_calls.specs.Calls.{call_of, HoldsCalls};

use crate::tape_calls::TapeCalls;
use calls::Call;
use faults::MOST_BYTES;
use std::alloc::{AllocError, Global};
use tape::{Command, TapeReader};
use trips::Trip;

/// The call that a command stands for. A function and no impl of `From`: that would have to stand in
/// `calls` or in `tape`, which know nothing of one another.
fn call_of(command: Command) -> Call
    ensures { result ≡ call_of command }
{
    match command {
        Command::Add {
            number,
            start,
            departure,
            end,
            arrival,
        } => Call::Add(Trip {
            number,
            start,
            departure,
            end,
            arrival,
        }),
        Command::Withdraw { number } => Call::Withdraw(number),
        Command::Limit { limit } => Call::SetLimit(u16::from(limit)),
        Command::Plan => Call::Plan,
    }
}

/// Reads a whole tape into an empty list of calls that has room for as many as the tape can hold.
fn read_into(mut calls: Vec<Call>, tape: &[u8]) -> TapeCalls
    requires none { calls.items ≡ [] }
    requires room { min (length tape.now) 60000 ≤ vec_capacity calls }
    ensures { HoldsCalls tape.now result.calls.items result.fault }
{
    for item in TapeReader::new(tape) {
        match item {
            Ok(command) => calls.push_reserved(call_of(command)),
            Err(fault) => {
                let fault = Some(fault);
                return TapeCalls { calls, fault };
            }
        }
    }
    TapeCalls { calls, fault: None }
}

/// Reads a whole tape. Room for as many calls as the tape can hold, one for each byte that is read, is
/// reserved first, so want of memory can come at no other moment.
pub fn read_tape(heap: Global, tape: &[u8]) -> Result<TapeCalls, AllocError>
    ensures { IfOk result (λ t. HoldsCalls tape.now t.calls.items t.fault) }
{
    let room = tape.len().min(MOST_BYTES);
    let calls = Vec::with_capacity(heap, room)?;
    Ok(read_into(calls, tape))
}

//! The lines of a tape.
ghost use Rattle.std.specs.Prelude.{◌≡◌, ◌++◌, IfOk, string_bytes};
ghost use Rattle.tape_report.specs.Prints.{CallLines, TapePrints};
ghost use Rattle.tape_report.specs.Texts.{fault_last};

use crate::page::Page;
use board::{MOST_TRIPS, NewBoard};
use calls::Call;
use faults::Fault;
use plans::{Pricing, Tables, Terms};
use rows::Rowed;
use rules::Rule;
use runs::run_calls;
use std::alloc::{AllocError, Global};
use tape_calls::{TapeCalls, read_tape};
use tariffs::Tariff;

/// The work tables for a full board have so many entries.
const WORK: usize = 4 * MOST_TRIPS + 4;

/// The lines of all calls, done on a new board with tables for a full board.
fn call_lines<'a, R: Rule, T: Tariff>(
    heap: Global,
    terms: &Terms<'a, R, T>,
    calls: &[Call],
) -> Result<String, AllocError>
    ensures { IfOk result (λ text. CallLines T.Value.Rowed.row (⟦<Terms<'a, R, T> as Pricing>⟧.terms terms.now) calls.now (string_bytes text)) }
{
    let board = NewBoard::new(heap)?;
    let mut successors = vec![in heap; 0u16; MOST_TRIPS]?;
    let mut prices = vec![in heap; T::Value::zero(); MOST_TRIPS]?;
    let mut numbers = vec![in heap; 0u16; WORK]?;
    let mut values = vec![in heap; T::Value::zero(); WORK]?;
    let mut tables = Tables {
        successors: successors.as_mut_slice(),
        prices: prices.as_mut_slice(),
        numbers: numbers.as_mut_slice(),
        values: values.as_mut_slice(),
    };
    let mut page = Page {
        text: Ok(String::new(heap)),
    };
    let _ = run_calls(board, terms, calls, &mut tables, &mut page);
    page.text
}

/// The text with the line of a tape's fault, if it has one.
fn with_fault(mut text: String, fault: Option<Fault>) -> Result<String, AllocError>
    ensures { IfOk result (λ whole. string_bytes whole ≡ string_bytes text ++ fault_last fault) }
{
    if let Some(fault) = fault {
        writeln!(text, "{fault}")?;
    }
    Ok(text)
}

/// The lines of the calls that a tape holds, done on a new board: `ok` for a call that altered the board, a plan's duties
/// and its cost, or a refusal; and then the tape's fault, if it has one.
pub fn tape_lines<'a, R: Rule, T: Tariff>(
    heap: Global,
    terms: &Terms<'a, R, T>,
    tape: &[u8],
) -> Result<String, AllocError>
    ensures { IfOk result (λ text. TapePrints T.Value.Rowed.row (⟦<Terms<'a, R, T> as Pricing>⟧.terms terms.now) tape.now (string_bytes text)) }
{
    let TapeCalls { calls, fault } = read_tape(heap, tape)?;
    let text = call_lines(heap, terms, calls.as_slice())?;
    with_fault(text, fault)
}

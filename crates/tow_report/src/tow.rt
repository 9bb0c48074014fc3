//! The tow program, put together.
ghost use Rattle.std.specs.Prelude.{◌≡◌, IfOk, string_bytes};
ghost use Rattle.rows.specs.declared.row.Row.{Row};
ghost use Rattle.tape_report.specs.Prints.{TapePrints};
ghost use Rattle.tow_report.specs.Tows.{terms_of, TowPrints};

use plans::Terms;
use rules::Cap;
use std::alloc::{AllocError, Global};
use tape_report::tape_lines;
use tariffs::Cents;
use tow_inputs::remake_from_sheets;
use tow_rule::{TowRule, Unmade};
use tow_sheets::{Charges, Link, MOST_LINKS};

/// A crew waits for at most so many minutes.
const CREW_CAP: u16 = 480;

/// The tow rule under the crew cap.
fn crewed<'a>(rule: TowRule<'a>) -> Cap<TowRule<'a>>
    ensures below { result.below ≡ rule.entry }
    ensures cap { result.cap ≡ 480 }
{
    Cap::new(rule, CREW_CAP)
}

/// The lines of a tape by a capped tow rule, in cents and with the fee of the charges.
fn lines_by(
    heap: Global,
    rule: &Cap<TowRule<'_>>,
    charges: Charges,
    tape: &[u8],
) -> Result<String, AllocError>
    ensures { IfOk result (λ text. TapePrints {V = Row 1} (λ r. r.places) (terms_of rule.now.below.yard rule.now.below.listed.links.now rule.now.cap charges.fee) tape.now (string_bytes text)) }
{
    let terms = Terms {
        rule,
        tariff: &Cents,
        fee: charges.fee,
    };
    tape_lines(heap, &terms, tape)
}

/// The lines that are printed for the bytes of the charges sheet, the links sheet and the tape: by the tow rule under the
/// crew cap and in cents, what each call of the tape answers, and the first fault.
pub fn tow_lines(
    heap: Global,
    charges: &[u8],
    links: &[u8],
    tape: &[u8],
) -> Result<String, AllocError>
    ensures { IfOk result (λ text. TowPrints charges.now links.now tape.now (string_bytes text)) }
{
    // The records of the links sheet lie in a table that is lent to the reader.
    let mut table = [Link::default(); MOST_LINKS];
    let mut rule = TowRule::new(heap);
    match remake_from_sheets(&mut rule, charges, links, &mut table) {
        Ok(sums) => lines_by(heap, &crewed(rule), sums, tape),
        Err(Unmade::Refused(fault)) => fault.line(heap),
        Err(Unmade::NoMemory) => Err(AllocError),
    }
}

//! The tow rule, made from the two sheets.
ghost use Rattle.std.specs.Prelude.{min, length};
ghost use Rattle.tow_inputs.specs.Rules.{InForce, RemadeFrom};

use crate::reading::read_sheets;
use tow_rule::{TowRule, Unmade};
use tow_sheets::{Charges, Link};

/// Makes a tow rule again from links and charges that two sheets say. There is then no reason to refuse
/// them, so only memory can be wanting.
fn put_in_force<'a>(
    rule: &mut TowRule<'a>,
    links: &'a [Link],
    charges: Charges,
) -> Result<Charges, Unmade>
    ensures { InForce charges links.now rule.old result rule.new }
{
    rule.remake(links, charges.out, charges.home)?;
    Ok(charges)
}

/// Makes a tow rule again from what the charges sheet and the links sheet say, and gives the charges.
/// The rule then goes by the links that stand in the table. The first fault of either sheet, or want of
/// memory, leaves the rule as it was.
pub fn remake_from_sheets<'a>(
    rule: &mut TowRule<'a>,
    charges: &[u8],
    links: &[u8],
    table: &'a mut [Link],
) -> Result<Charges, Unmade>
    ensures { RemadeFrom charges.now links.now (min 2000 (length table.old)) rule.old result rule.new }
{
    let sheets = read_sheets(charges, links, table)?;
    put_in_force(rule, &table[..sheets.links], sheets.charges)
}

//! The charges sheet, exactly one line: the cents out from the yard, the cents home, and the fee for
//! opening a duty.
ghost use Rattle.std.specs.Prelude.{◌≡◌};
ghost use Rattle.tow_sheets.specs.Charges.{in_range, charges_rules, Charged};
ghost use Rattle.std.proofs.Common.{rules};

use faults::{Fault, Layer, Refusal};
use sheet::{SheetKind, fill_sheet};

/// The most cents that a sum of money may be.
pub const MOST_CENTS: u32 = 1_000_000_000;

/// What the yard charges, in cents.
#[derive(Clone, Copy, Default, PartialEq, Eq, Debug)]
pub struct Charges {
    /// For the way out to a duty's first trip.
    pub out: u32,
    /// For the way home from a duty's last trip.
    pub home: u32,
    /// For opening a duty.
    pub fee: u32,
}

impl Charges {
    /// Whether the three sums are within their range.
    fn is_in_range(self) -> bool
        ensures { result ≡ in_range self.out self.home self.fee }
    {
        self.out <= MOST_CENTS && self.home <= MOST_CENTS && self.fee <= MOST_CENTS
    }
}

/// The kind of the charges sheet.
#[derive(Clone, Copy)]
pub struct ChargesSheet;

impl SheetKind for ChargesSheet {
    type Record = Charges;

    ghost rules = { λ _. charges_rules };

    ghost at_most_eight_fields = { Prim.search rules };

    fn layer(&self) -> Layer {
        Layer::Charges
    }

    fn takes(&self, fields: usize) -> bool {
        fields == 3
    }

    fn made(&self, _line: usize, numbers: &[u64]) -> Option<Charges> {
        let [out, home, fee] = numbers else {
            return None;
        };
        let charges = Charges {
            out: u32::try_from(*out).ok()?,
            home: u32::try_from(*home).ok()?,
            fee: u32::try_from(*fee).ok()?,
        };
        charges.is_in_range().then_some(charges)
    }

    fn clash(&self, _earlier: &[Charges], _new: &Charges) -> Option<Refusal> {
        None
    }

    fn most(&self) -> usize {
        1
    }

    fn least(&self) -> usize {
        1
    }
}

/// The one record of the charges sheet, or the sheet's first fault.
pub fn read_charges(sheet: &[u8]) -> Result<Charges, Fault>
    ensures { Charged sheet.now result }
{
    // A sheet is read into memory that the caller lends, here room for the one record.
    let mut table = [Charges::default()];
    let filling = fill_sheet(&ChargesSheet, sheet, &mut table);
    let [charges] = table;
    filling.fault.map_or(Ok(charges), Err)
}

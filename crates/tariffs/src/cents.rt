//! The tariff that counts cents alone.
ghost use Rattle.std.specs.Prelude.{◌+◌, [], ◌∷◌, pos};
ghost use Rattle.tariffs.specs.Charges.{capped};
ghost use Rattle.std.proofs.Common.{rules};

use crate::amounts::counted;
use crate::tariff::Tariff;
use rows::Row;

/// Cents alone, in one place.
#[derive(Clone, Copy)]
pub struct Cents;

impl Tariff for Cents {
    const PLACES: usize = 1;

    type Value = Row<{ Cents::PLACES }>;

    ghost opens = { λ _ fee cents. pos (capped fee + capped cents) ∷ [] };

    ghost links = { λ _ cents. pos (capped cents) ∷ [] };

    ghost homes = { λ _ cents. pos (capped cents) ∷ [] };

    ghost laws = { Prim.search rules };

    fn row_length() -> usize {
        Self::PLACES
    }

    fn opening(&self, fee: u32, cents: u32) -> Row<1> {
        Row::new([counted(fee) + counted(cents)])
    }

    fn link(&self, cents: u32) -> Row<1> {
        Row::new([counted(cents)])
    }

    fn home(&self, cents: u32) -> Row<1> {
        self.link(cents)
    }
}

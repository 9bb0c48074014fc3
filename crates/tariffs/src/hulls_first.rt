//! The tariff that counts hulls, and cents where the hulls are as many.
ghost use Rattle.std.specs.Prelude.{◌+◌, [], ◌∷◌, pos};
ghost use Rattle.tariffs.specs.Charges.{capped};
ghost use Rattle.std.proofs.Common.{rules};

use crate::amounts::counted;
use crate::tariff::Tariff;
use rows::Row;

/// Hulls in the first place, cents in the second.
#[derive(Clone, Copy)]
pub struct HullsFirst;

impl Tariff for HullsFirst {
    const PLACES: usize = 2;

    type Value = Row<{ HullsFirst::PLACES }>;

    ghost opens = { λ _ fee cents. pos 1 ∷ pos (capped fee + capped cents) ∷ [] };

    ghost links = { λ _ cents. pos 0 ∷ pos (capped cents) ∷ [] };

    ghost homes = { λ _ cents. pos 0 ∷ pos (capped cents) ∷ [] };

    ghost laws = { Prim.search rules };

    fn row_length() -> usize {
        Self::PLACES
    }

    fn opening(&self, fee: u32, cents: u32) -> Row<2> {
        Row::new([1, counted(fee) + counted(cents)])
    }

    fn link(&self, cents: u32) -> Row<2> {
        Row::new([0, counted(cents)])
    }

    fn home(&self, cents: u32) -> Row<2> {
        self.link(cents)
    }
}

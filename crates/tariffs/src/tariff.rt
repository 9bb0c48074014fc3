//! What every tariff shows.
ghost use Rattle.std.specs.Prelude.{◌≡◌, ℕ, List, ℤ};
ghost use Rattle.tariffs.specs.Laws.{TariffLaws};

use rows::Rowed;

/// What things are worth. A tariff refuses nothing, answers alike each time and alters nothing: its answers are
/// those of its ghost members. Each place of an answer lies within ±2,000,000,000 and may be below zero, and a fee
/// or cents above 1,000,000,000 count as that.
pub trait Tariff {
    /// How many places the rows have, 1 to 4.
    const PLACES: usize;

    /// What stands for a row.
    type Value: Rowed;

    /// The row for opening a duty, from the fee and the cents out.
    ghost opens: { Self → ℕ → ℕ → List ℤ };

    /// The row for a link, from its cents.
    ghost links: { Self → ℕ → List ℤ };

    /// The row for coming home, from its cents.
    ghost homes: { Self → ℕ → List ℤ };

    /// How many places the rows have: each tariff answers with its `PLACES`.
    // No body here: it would ask of every tariff that `PLACES` is the number of places of `Value`.
    fn row_length() -> usize
        ensures { result ≡ Self.Value.Rowed.count };

    /// What it is worth to open a duty.
    fn opening(&self, fee: u32, cents: u32) -> Self::Value
        ensures { Self.Value.Rowed.row result ≡ opens self.now fee cents };

    /// What a link is worth.
    fn link(&self, cents: u32) -> Self::Value
        ensures { Self.Value.Rowed.row result ≡ links self.now cents };

    /// What coming home is worth.
    fn home(&self, cents: u32) -> Self::Value
        ensures { Self.Value.Rowed.row result ≡ homes self.now cents };

    /// What holds of the answers and of the number of places.
    ghost laws: { TariffLaws Self.Value.Rowed.count opens links homes };
}

//! What a kind of sheet adds to the one reader.
ghost use Rattle.std.specs.Prelude.{◌≡◌, ℕ, ◌≤◌, true};
ghost use Rattle.sheet.specs.Rules.{Rules};

use faults::{Layer, Refusal};

/// A kind of sheet, with whatever its ranges depend on. Its ghost member `rules` says all that the
/// reader relies on.
pub trait SheetKind {
    /// What one line of the sheet gives.
    type Record: Copy;

    ghost rules: { Self → Rules Self.Record };

    /// The layer of the sheet's faults.
    fn layer(&self) -> Layer
        ensures { result ≡ (rules self.now).layer };

    /// Whether a line may have this many fields.
    fn takes(&self, fields: usize) -> bool
        ensures { result ≡ (rules self.now).takes fields };

    /// The record of a line with these numbers, or None where one of them is out of range.
    fn made(&self, line: usize, numbers: &[u64]) -> Option<Self::Record>
        ensures { result ≡ (rules self.now).made line numbers.now };

    /// What forbids a record after the records before it.
    fn clash(&self, earlier: &[Self::Record], new: &Self::Record) -> Option<Refusal>
        ensures { result ≡ (rules self.now).clash earlier.now new.now };

    /// The most records that the sheet may have.
    fn most(&self) -> usize
        ensures { result ≡ (rules self.now).most };

    /// The least records that the sheet must have.
    fn least(&self) -> usize
        ensures { result ≡ (rules self.now).least };

    ghost at_most_eight_fields: { (k : Self) (n : ℕ) → (rules k).takes n ≡ true → n ≤ 8 };
}

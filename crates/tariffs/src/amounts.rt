//! How fees and cents count.
ghost use Rattle.std.specs.Prelude.{◌≡◌, pos};
ghost use Rattle.tariffs.specs.Charges.{capped};

/// The most that counts of a fee or of cents.
const CAP: u32 = 1_000_000_000;

/// A fee or cents as they count: above 1,000,000,000 as that.
pub fn counted(amount: u32) -> i64
    ensures { result ≡ pos (capped amount) }
{
    i64::from(amount.min(CAP))
}

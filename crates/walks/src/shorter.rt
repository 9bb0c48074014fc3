//! The choice of the shorter of two lengths.
ghost use Rattle.std.specs.Prelude.{◌≡◌, ℕ, ◌^◌, ◌≤◌, Some};
ghost use Rattle.walks.specs.Tables.{shorter, via};

/// The shorter of a new length and an old one, if there is an old one.
pub(crate) fn shorter_of(old: Option<u64>, new: u64) -> u64
    ensures { result ≡ shorter new old }
{
    old.map_or(new, |known| known.min(new))
}

/// The old length, or that of the two parts of a way by a third berth, where that is shorter.
pub(crate) fn shorter_by_way(first: u64, second: Option<u64>, old: Option<u64>) -> Option<u64>
    requires { (first ≤ 2 ^ 62) × ((n : ℕ) → second ≡ Some n → n ≤ 2 ^ 62) }
    ensures { result ≡ via (Some first) second old }
{
    second.map_or(old, |rest| Some(shorter_of(old, first + rest)))
}

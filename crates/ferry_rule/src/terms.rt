//! The terms of the ferry rule.
ghost use Rattle.std.specs.Prelude.{◌≡◌, ◌+◌, ◌*◌, ◌≤◌, MatchOption};
ghost use Rattle.trips.specs.Gaps.{gap_lies_within};
ghost use Rattle.ferry_rule.specs.Ranges.{TermsInRange};

use trips::{Trip, gap_within};

/// The minutes that a hull lies between two trips beside the way, at the least and at the most, and
/// the cents that a minute of way costs.
#[derive(Clone, Copy)]
pub(crate) struct Terms {
    pub(crate) least: u16,
    pub(crate) most: u16,
    pub(crate) factor: u16,
    ghost least_bound: { least ≤ 600 },
    ghost most_bound: { most ≤ 10080 },
    ghost in_order: { least ≤ most },
    ghost factor_bound: { factor ≤ 10000 },
}

impl Terms {
    /// The terms with these values, unless one of them is out of its range.
    pub(crate) fn new(least: u16, most: u16, factor: u16) -> Option<Terms>
        ensures { MatchOption result (TermsInRange least most factor → ⊥) (λ t. TermsInRange least most factor × (t.least ≡ least) × (t.most ≡ most) × (t.factor ≡ factor)) }
    {
        if least > 600 || most < least || most > 10080 || factor > 10000 {
            return None;
        }
        Some(Terms {
            least,
            most,
            factor,
        })
    }

    /// What so many minutes of way cost.
    pub(crate) fn cents(&self, minutes: u32) -> u32
        requires { minutes ≤ 18600 }
        ensures { result ≡ minutes * self.now.factor }
    {
        minutes * u32::from(self.factor)
    }

    /// Whether the gap between two trips fits so many minutes of way.
    pub(crate) fn fit(&self, from: &Trip, to: &Trip, minutes: u32) -> bool
        requires { minutes ≤ 18600 }
        ensures { result ≡ gap_lies_within (self.now.least + minutes) (self.now.most + minutes) from.now to.now }
    {
        let lower = u32::from(self.least) + minutes;
        let upper = u32::from(self.most) + minutes;
        gap_within(from, to, lower, upper)
    }
}

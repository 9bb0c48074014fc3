//! What a plan goes by.
ghost use Rattle.plans.specs.Terms.{Terms};

use rows::Rowed;
use rules::Rule;
use tariffs::Tariff;

/// The rule that says which trip may follow which, the tariff that says what things are worth, and the fee for opening a duty.
#[derive(Clone, Copy)]
pub struct Terms<'a, R, T> {
    pub rule: &'a R,
    pub tariff: &'a T,
    pub fee: u32,
}

// A trait with no method, since the value of an `impl Model` cannot hold functions.
/// What is known of terms, for contracts alone.
pub trait Pricing {
    /// The facts of the rule, the values of the tariff, and the fee.
    ghost terms: { Self → Terms };
}

impl<R: Rule, T: Tariff> Pricing for Terms<'_, R, T> {
    ghost terms = { λ s. record {
      yard = R.Rule.yard s.rule.now;
      link = R.Rule.link s.rule.now;
      places = T.Value.Rowed.count;
      opens = T.Tariff.opens s.tariff.now;
      links = T.Tariff.links s.tariff.now;
      homes = T.Tariff.homes s.tariff.now;
      fee = s.fee;
    } };
}

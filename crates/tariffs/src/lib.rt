//! Tariffs: what opening a duty, a link and coming home are worth, as rows.
#![tactic(auto)]

mod amounts;
mod cents;
mod hulls_first;
mod tariff;

pub use amounts::counted;
pub use cents::Cents;
pub use hulls_first::HullsFirst;
pub use tariff::Tariff;

#[cfg(test)]
mod tests;

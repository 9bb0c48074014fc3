//! Tests of the tow rule.
#![tactic(auto)]

#[cfg(test)]
mod links;
#[cfg(test)]
mod making;

//! Tests of the ferry rule.
#![tactic(auto)]

#[cfg(test)]
mod links;
#[cfg(test)]
mod making;

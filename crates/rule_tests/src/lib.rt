//! Tests of the crew cap over a rule that is written here, to show that the trait is open.
#![tactic(auto)]

#[cfg(test)]
mod tests;

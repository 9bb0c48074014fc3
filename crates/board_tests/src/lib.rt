//! Tests of the board: each refusal at its edge, which one comes first, and what stands after.
#![tactic(auto)]

#[cfg(test)]
mod tests;

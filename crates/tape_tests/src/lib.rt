//! Tests of the tape reader, at every edge of the format.
#![tactic(auto)]

#[cfg(test)]
mod cases;

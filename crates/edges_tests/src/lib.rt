//! Tests of the edges sheet and the chart, at every edge of the format.
#![tactic(auto)]

#[cfg(test)]
mod hand;
#[cfg(test)]
mod lines;

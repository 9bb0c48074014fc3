//! Tests of the links and charges sheets.
#![tactic(auto)]

#[cfg(test)]
mod charges;
#[cfg(test)]
mod links;

//! Lemmas for functions that write a text part by part; there is no code here. See proofs/Writing.antt.
#![tactic(auto)]

//! Words and lemmas on lists and options that several crates use; there is no code here.
#![tactic(auto)]

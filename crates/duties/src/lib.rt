//! Duties, covers, their costs and prices: definitions and lemmas, no code.
#![tactic(auto)]

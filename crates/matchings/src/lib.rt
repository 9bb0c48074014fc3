//! Links from tails to heads, the prices that bear them out, and how the search grows both: definitions and lemmas, no code.
#![tactic(auto)]

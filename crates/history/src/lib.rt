//! What stands on a board, and which limit is in force, said by the calls alone: a theorem, no code.
#![tactic(auto)]

//! What the tables of the search come to: an accepted plan, or too few hulls. Lemmas; there is no code here.
#![tactic(auto)]

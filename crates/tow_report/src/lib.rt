//! What the program `tow` prints for its three inputs. This is the one place that puts the program together: its rule, its crew
//! cap and its tariff.
#![tactic(auto)]

mod tow;

pub use tow::tow_lines;

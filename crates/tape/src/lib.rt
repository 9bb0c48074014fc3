//! A tape of commands: one letter each, with operands of fixed widths.
//!
//! The reader hands on the commands one by one, up to the first fault, and then that fault. What the
//! operands say is not looked at here.
#![tactic(auto)]

mod command;
mod kind;
mod reader;

pub use command::Command;
pub use reader::TapeReader;

//! A sheet cut into tokens: the fields of its lines, without the spaces around them, and the ends of
//! its lines; and the number that a field's digits write.
#![tactic(auto)]

mod reader;
mod text;

pub use reader::{Reader, Token};
pub use text::number;

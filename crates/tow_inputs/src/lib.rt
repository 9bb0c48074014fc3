//! The tow office's two sheets, and the tow rule that is made from them.
#![tactic(auto)]

mod making;
mod reading;
mod sound;

pub use making::remake_from_sheets;
pub use reading::read_sheets;
pub use sound::TowSheets;

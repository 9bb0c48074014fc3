//! The tow office's connection rule: a tow follows another where the list of links has the two and
//! the time between them fits.
#![tactic(auto)]

mod facts;
mod index;
mod listed;
mod listing;
mod making;
mod ranges;
mod rule;
mod unmade;

pub use listed::ListedLinks;
pub use rule::TowRule;
pub use unmade::Unmade;

//! The one reader of sheets. What differs from sheet to sheet (which field counts it takes, its
//! ranges, its own tests, how many records) is a `SheetKind`; all else is here, once.
#![tactic(auto)]

mod admission;
mod filling;
mod kind;
mod listing;
mod reading;
mod row;
mod store;

pub use admission::admit;
pub use filling::{Filling, fill_sheet};
pub use kind::SheetKind;
pub use listing::{Listing, list_sheet};

//! Rows of whole numbers, which are compared at the first place where they differ.
//! Sums, opposites and whole multiples go place by place, and every place stays within ±10^17.
#![tactic(auto)]

mod places;
mod row;
mod rowed;

pub use row::Row;
pub use rowed::Rowed;

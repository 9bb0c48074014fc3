//! What the two sheets give where neither has a fault.
use tow_sheets::Charges;

/// What the yard charges, and how many links stand in the table that they were read into.
#[derive(Clone, Copy, PartialEq, Eq, Debug)]
pub struct TowSheets {
    pub charges: Charges,
    // The records lie in a table that the caller lends, and a clause says what the table holds.
    pub links: usize,
}

//! The two sheets of the tow office: which tow may follow which, and what the yard charges.
#![tactic(auto)]

mod charges;
mod links;

pub use charges::{Charges, ChargesSheet, MOST_CENTS, read_charges};
pub use links::{Link, LinksSheet, MOST_LINKS, read_links};

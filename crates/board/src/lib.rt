//! The board of standing trips: which trips stand, in which order, and how many duties they may
//! take.
#![tactic(auto)]

mod board;
mod fresh;

pub use board::{Board, MOST_TRIPS};
pub use fresh::NewBoard;

//! The search for the cheapest links from tails to heads, which are grown one by one.
//!
//! Every trip is a tail, which one trip may follow, and a head, which may follow one trip. All tables are
//! lent, and are read by the position of a trip: the `Links` that are made, the `Prices` that bear them out, and what a
//! growth knows of the `Tails`. The slack of a tail is the least by which a link to a reached head costs more than its
//! two prices.
//!
//! The three are lent one by one, and not as one value: a function that is lent `&Links` says by that alone that it leaves
//! the links as they are. That the prices bear the links out is a fact of two of them, which change apart (a raise writes
//! prices, a flip links), so it stands in the contracts.
pub(crate) mod bounded;
mod costs;
mod entries;
mod extend;
mod flip;
mod grow;
mod least;
pub(crate) mod links;
pub(crate) mod prices;
mod raise;
mod reach;
mod scan;
mod settle;
pub(crate) mod solve;
mod stop;
mod stuck;
pub(crate) mod tails;

pub(crate) use costs::Costs;

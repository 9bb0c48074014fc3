//! What a call answers.
use faults::Fault;
use plans::Plan;

/// What a call did that was not refused. `V` stands for the rows of the tariff.
#[derive(Clone, Copy)]
pub enum Done<V> {
    /// A trip was added or withdrawn, or the limit set.
    Altered,
    /// The trips are planned; the tables have the successors and the prices.
    Planned(Plan<V>),
}

/// What a call answers: what it did, or why it is refused.
pub type Answer<V> = Result<Done<V>, Fault>;

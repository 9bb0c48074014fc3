//! What an accepted plan tells beside the tables that it writes.

/// An accepted plan: how many duties it has, what they cost, and what one hull more or less is worth.
#[derive(Clone, Copy)]
pub struct Plan<V> {
    /// The number of duties.
    pub duties: u16,
    /// What the duties cost together.
    pub cost: V,
    /// The hull price: by the plan's prices, what each duty beyond the limit would save at most.
    pub hull_price: V,
}

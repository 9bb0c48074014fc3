//! Where a growth goes no further.

/// Why a growth gains no link.
#[derive(Clone, Copy)]
pub(crate) enum Stuck {
    /// No other tail can be reached.
    DeadEnd,
    /// No raise that keeps the hull price at or below zero reaches another tail.
    Dear,
}

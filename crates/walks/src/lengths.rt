//! The shape of a table of lengths between berths.

/// How many berths there are.
pub(crate) const BERTHS: usize = 32;

/// The lengths of the ways from one berth to each.
pub(crate) type Row = [Option<u64>; BERTHS];

/// A row for each berth.
pub(crate) type Rows = [Row; BERTHS];

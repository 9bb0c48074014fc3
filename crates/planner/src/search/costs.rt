//! What the search asks of the day that it plans.
ghost use Rattle.std.specs.Prelude.{◌≡◌, List, ℤ};
ghost use Rattle.std.specs.Option.{option_map};
ghost use Rattle.duties.specs.Duties.{Net};

use rows::Rowed;

/// What trips cost, by their positions.
pub(crate) trait Costs {
    /// What stands for a row.
    type Value: Rowed;

    /// The trips and their costs, in rows.
    ghost net: { Self → Net (List ℤ) };

    /// What the link from the tail `i` to the head `j` costs; none if it is not allowed.
    fn link(&self, i: usize, j: usize) -> Option<Self::Value>
        ensures { option_map Self.Value.Rowed.row result ≡ (net self.now).link i j };

    /// What it costs to open a duty with the trip `j`.
    fn opening(&self, j: usize) -> Self::Value
        ensures { Self.Value.Rowed.row result ≡ (net self.now).opens j };

    /// What it costs to come home after the trip `i`.
    fn home(&self, i: usize) -> Self::Value
        ensures { Self.Value.Rowed.row result ≡ (net self.now).homes i };
}

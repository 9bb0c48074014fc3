//! When the search stops.
ghost use Rattle.std.specs.Prelude.{◌≡◌, ◌≤◌, true, false, pos, ◌+ℤ◌, ◌≤ℤ◌, ◌<ℤ◌, int_lt};
ghost use Rattle.rows.specs.Places.{weight};
ghost use Rattle.matchings.specs.Rowed.{PlacesNear};

use rows::Rowed;

/// Whether the links are enough: the duties are within the limit, and the hull price is not below zero.
pub(crate) fn enough<V: Rowed>(duties: u16, limit: u16, hull: V) -> bool
    ensures stop { result ≡ true → (duties ≤ limit) × (pos 0 ≤ℤ weight (V.Rowed.row hull)) }
    ensures go { result ≡ false → duties ≤ limit → weight (V.Rowed.row hull) <ℤ pos 0 }
{
    duties <= limit && !hull.is_below(V::zero())
}

/// Whether a raise would lift the hull price above zero.
pub(crate) fn is_over<V: Rowed>(hull: V, by: V) -> bool
    requires hull_near { PlacesNear 40000000000000000 (V.Rowed.row hull) }
    requires by_near { PlacesNear 40000000000000000 (V.Rowed.row by) }
    ensures { result ≡ int_lt (pos 0) (weight (V.Rowed.row hull) +ℤ weight (V.Rowed.row by)) }
{
    V::zero().is_below(hull.plus(by))
}

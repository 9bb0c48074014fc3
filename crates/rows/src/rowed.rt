//! What generic code knows of a row.
ghost use Rattle.std.specs.Prelude.{◌≡◌, ℕ, List, length, replicate, ℤ, pos};
ghost use Rattle.std.specs.List.{slice_get};
ghost use Rattle.rows.specs.Places.{added, opposite, scaled, kept, below};

use crate::places::{opposites, products, sums};
use crate::row::Row;

/// A value that stands for a row.
pub trait Rowed: Copy {
    /// The row that a value stands for.
    ghost row: { Self → List ℤ };

    /// How many places every row has.
    ghost count: { ℕ };

    /// A proof that each row has that many places.
    ghost long: { (v : Self) → length (row v) ≡ count };

    /// A proof that each place lies within the bound: the bound leaves the row as it is.
    ghost near: { (v : Self) → kept (row v) ≡ row v };

    /// Zero in each place.
    fn zero() -> Self
        ensures { row result ≡ replicate count (pos 0) };

    /// The same number in each place.
    fn filled(by: i64) -> Self
        ensures { row result ≡ kept (replicate count by) };

    /// The sum, place by place.
    fn plus(self, other: Self) -> Self
        ensures { row result ≡ kept (added (row self) (row other)) };

    /// The difference, place by place.
    fn minus(self, other: Self) -> Self
        ensures { row result ≡ kept (added (row self) (opposite (row other))) };

    /// The other side of zero, place by place.
    fn negated(self) -> Self
        ensures { row result ≡ opposite (row self) };

    /// The whole multiple, place by place.
    fn times(self, by: i64) -> Self
        ensures { row result ≡ kept (scaled by (row self)) };

    /// One place, counted from 0; none past the last.
    fn place(self, i: usize) -> Option<i64>
        ensures { result ≡ slice_get (row self) i };

    /// Whether this row comes before the other: the first place that differs decides.
    fn is_below(self, other: Self) -> bool
        ensures { result ≡ below (row self) (row other) };
}

impl<const N: usize> Rowed for Row<N> {
    ghost row = { λ r. r.places };

    ghost count = { N };

    ghost long = { λ v. v.long };

    ghost near = { λ v. v.near };

    fn zero() -> Row<N> {
        Row { places: [0; N] }
    }

    fn filled(by: i64) -> Row<N> {
        Row::new([by; N])
    }

    fn plus(self, other: Row<N>) -> Row<N> {
        Row::new(sums(self.places, other.places))
    }

    fn minus(self, other: Row<N>) -> Row<N> {
        self.plus(other.negated())
    }

    fn negated(self) -> Row<N> {
        Row {
            places: opposites(self.places),
        }
    }

    fn times(self, by: i64) -> Row<N> {
        Row::new(products(self.places, by))
    }

    fn place(self, i: usize) -> Option<i64> {
        self.places.get(i).copied()
    }

    #[tactic(auto, using(crate::proofs::Comparisons::below_from_lt))]
    fn is_below(self, other: Row<N>) -> bool {
        self < other
    }
}

//! A row: a fixed number of places, each within the bound.
ghost use Rattle.std.specs.Prelude.{◌≡◌, Some, length};
ghost use Rattle.std.specs.Cmp.Lexicographic.{pointwise, slice_cmp};
ghost use Rattle.std.specs.Ordering.{int_cmp, int_eq};
ghost use Rattle.rows.specs.Laws.{RowLaws, CmpTellsStanding, PartialCmpIsCmp, EqTellsSame};
ghost use Rattle.rows.specs.Props.{standing_prop, answer_prop, decides_prop};
ghost use Rattle.rows.specs.Places.{kept};

use crate::places::bounded;

/// A row of `N` whole numbers, each within ±10^17.
#[derive(Clone, Copy, PartialEq, Eq, PartialOrd, Ord, Debug)]
pub struct Row<const N: usize> {
    pub(crate) places: [i64; N],
    ghost long: { length places ≡ N },
    ghost near: { kept places ≡ places },
    ghost stands: { CmpTellsStanding } by { Prim.hlevel standing_prop },
    ghost partly: { PartialCmpIsCmp } by { Prim.hlevel answer_prop },
    ghost same: { EqTellsSame } by { Prim.hlevel decides_prop },
}

impl<const N: usize> Row<N> {
    /// The row of these numbers. A number past the bound stays at the bound. The laws hold of all
    /// rows: the first place that differs decides their order, which is that of one whole number for
    /// each, the row's weight; the weight adds up, turns and multiplies as the row does; and sums of rows
    /// that lie near enough are exact. `cmp`, `<` and `==` go by the places, the first that differs first,
    /// and so tell what that order and the places say.
    #[tactic(auto, using(crate::proofs::Comparisons::partly_is, crate::proofs::Comparisons::standing_from_cmp, crate::proofs::Comparisons::eq_decides))]
    pub fn new(places: [i64; N]) -> Row<N>
        ensures value { result.places ≡ kept places.entry }
        ensures laws { RowLaws }
        ensures ordered { (a b : _) → ⟦<Row<N> as Ord>⟧.cmp a b ≡ slice_cmp int_cmp a.places b.places }
        ensures partly_ordered { (a b : _) → ⟦<Row<N> as PartialOrd>⟧.partial_cmp a b ≡ Some (slice_cmp int_cmp a.places b.places) }
        ensures equated { (a b : _) → ⟦<Row<N> as PartialEq>⟧.eq a b ≡ pointwise int_eq a.places b.places }
    {
        Row {
            places: bounded(places),
        }
    }

    /// The places, the first in front.
    pub fn places(&self) -> &[i64]
        ensures { result.now ≡ self.now.places }
    {
        &self.places
    }
}

//! Whole numbers place by place: the bound, sums, opposites and multiples. Each writes over its places by a loop and
//! takes no closure, since a closure in a function for every length has to say in clauses what its line does.
ghost use Rattle.std.specs.Prelude.{◌≡◌};
ghost use Rattle.rows.specs.Places.{added, opposite, scaled, kept};

/// How far from zero a place may lie.
const MOST: i64 = 100_000_000_000_000_000;

/// Each number, held within the bound.
pub(crate) fn bounded<const N: usize>(mut xs: [i64; N]) -> [i64; N]
    ensures value { result ≡ kept xs.entry }
    ensures near { kept result ≡ result }
{
    for x in xs.iter_mut() {
        *x = (*x).clamp(-MOST, MOST);
    }
    xs
}

/// The sums of numbers that lie within the bound.
pub(crate) fn sums<const N: usize>(mut xs: [i64; N], ys: [i64; N]) -> [i64; N]
    requires first_near { kept xs ≡ xs }
    requires second_near { kept ys ≡ ys }
    ensures { result ≡ added xs.entry ys.entry }
{
    // By an index: of what a zipped `iter_mut` writes a proof knows nothing.
    for (i, x) in xs.iter_mut().enumerate() {
        *x += ys[i];
    }
    xs
}

/// The opposites of numbers that lie within the bound: they lie there too.
pub(crate) fn opposites<const N: usize>(mut xs: [i64; N]) -> [i64; N]
    requires near { kept xs ≡ xs }
    ensures value { result ≡ opposite xs.entry }
    ensures near { kept result ≡ result }
{
    for x in xs.iter_mut() {
        *x = -*x;
    }
    xs
}

/// Numbers of which the bound makes what it makes of the multiples.
pub(crate) fn products<const N: usize>(mut xs: [i64; N], by: i64) -> [i64; N]
    ensures { kept result ≡ kept (scaled by xs.entry) }
{
    for x in xs.iter_mut() {
        *x = x.saturating_mul(by);
    }
    xs
}

ghost use Rattle.std.specs.Prelude.{◌≡◌, [], ◌∷◌, pos, neg_ℤ, Some, Decides};
ghost use Rattle.std.specs.Cmp.Lexicographic.{slice_cmp};
ghost use Rattle.std.specs.Ordering.{int_cmp, is_lt};
ghost use Rattle.std.specs.Option.{IsSomeAnd};
ghost use Rattle.rows.specs.Places.{Standing};
ghost use Rattle.tariffs.specs.Charges.{capped};
ghost use Rattle.std.proofs.Common.{rules};

use super::*;
use rows::Row;
use std::cmp::Ordering;

/// A tariff of four places: the fee paid back, the cents, which coming home pays back, the links and the hulls.
struct PaidBack;

impl Tariff for PaidBack {
    const PLACES: usize = 4;

    type Value = Row<{ PaidBack::PLACES }>;

    ghost opens = { λ _ fee cents. neg_ℤ (pos (capped fee)) ∷ pos (capped cents) ∷ pos 0 ∷ pos 1 ∷ [] };

    ghost links = { λ _ cents. pos 0 ∷ pos (capped cents) ∷ pos 1 ∷ pos 0 ∷ [] };

    ghost homes = { λ _ cents. pos 0 ∷ neg_ℤ (pos (capped cents)) ∷ pos 0 ∷ pos 0 ∷ [] };

    ghost laws = { Prim.search rules };

    fn row_length() -> usize {
        Self::PLACES
    }

    fn opening(&self, fee: u32, cents: u32) -> Row<4> {
        Row::new([-counted(fee), counted(cents), 0, 1])
    }

    fn link(&self, cents: u32) -> Row<4> {
        Row::new([0, counted(cents), 1, 0])
    }

    fn home(&self, cents: u32) -> Row<4> {
        Row::new([0, -counted(cents), 0, 0])
    }
}

#[test]
fn counts_up_to_the_cap(rt: HostRuntime) {
    assert_eq!(rt;
        Cents.opening(1_000_000_000, 999_999_999),
        Row::new([1_999_999_999])
    );
    assert_eq!(rt;
        Cents.opening(1_000_000_001, 4_000_000_000),
        Row::new([2_000_000_000])
    );
    assert_eq!(rt; Cents.link(1_000_000_001), Row::new([1_000_000_000]));
}

#[test]
fn opens_with_a_hull(rt: HostRuntime) {
    assert_eq!(rt; HullsFirst.opening(100, 50), Row::new([1, 150]));
    assert_eq!(rt; HullsFirst.home(70), Row::new([0, 70]));
}

#[test]
fn pays_back(rt: HostRuntime) {
    assert_eq!(rt; PaidBack.opening(100, 50), Row::new([-100, 50, 0, 1]));
    assert_eq!(rt; PaidBack.home(70), Row::new([0, -70, 0, 0]));
}

// What `==`, `cmp` and `partial_cmp` tell is known of rows that came from elsewhere, as a tariff's do.

/// Whether two rows are the same.
fn are_same(one: &Row<4>, other: &Row<4>) -> bool
    ensures { Decides result (one.now.places ≡ other.now.places) }
{
    *one == *other
}

/// How two rows stand.
fn standing(one: &Row<4>, other: &Row<4>) -> Ordering
    ensures { Standing one.now.places other.now.places result }
{
    one.cmp(other)
}

/// Whether a row comes before another.
fn is_before(one: &Row<4>, other: &Row<4>) -> bool
    ensures { result ≡ is_lt (slice_cmp int_cmp one.now.places other.now.places) }
{
    *one < *other
}

/// How two rows stand, as `<` asks.
fn partial_standing(one: &Row<4>, other: &Row<4>) -> Option<Ordering>
    ensures value { result ≡ Some (slice_cmp int_cmp one.now.places other.now.places) }
    ensures stands { IsSomeAnd result (Standing one.now.places other.now.places) }
{
    one.partial_cmp(other)
}

#[test]
fn answers_are_compared(rt: HostRuntime) {
    let short = PaidBack.link(50);
    let long = PaidBack.link(70);
    assert!(rt; are_same(&short, &short) && !are_same(&short, &long));
    assert!(rt; standing(&short, &long).is_lt() && is_before(&short, &long));
    assert!(rt; partial_standing(&long, &short) == Some(Ordering::Greater));
}

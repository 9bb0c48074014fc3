//! A rule, the crew cap over it, and a cap over a cap.
ghost use Rattle.rule_tests.specs.Harbour.{harbour_link, harbour_yard, link_forward, link_bound, yard_bound};

use rules::{Cap, Rule, YardCents};
use std::test::Fail;
use trips::{Trip, gap};

/// The rule of a small harbour: it serves trips from its first ten berths, and a vessel goes on
/// from the berth where it lies once it has turned, for 90 cents.
#[derive(Clone, Copy)]
struct Harbour {
    turn: u16,
}

impl Rule for Harbour {
    ghost yard = { λ _ t. harbour_yard t };

    ghost link = { λ s a b. harbour_link s.turn a b };

    ghost forward = { λ s a b n e. link_forward s.turn a b n e };

    ghost yardbound = { λ _ t y e. yard_bound t y e };

    ghost linkbound = { λ s a b n e. link_bound s.turn a b n e };

    fn yard_cents(&self, trip: &Trip) -> Option<YardCents> {
        (trip.start < 10).then_some(YardCents {
            out: 500,
            home: 700,
        })
    }

    fn link_cents(&self, from: &Trip, to: &Trip) -> Option<u32> {
        let ready = u32::from(from.arrival) + u32::from(self.turn);
        (from.end == to.start && ready <= u32::from(to.departure)).then_some(90)
    }
}

/// A trip from berth 2 to berth 3, which arrives at 200.
fn first() -> Trip {
    Trip::new(1, 2, 100, 3, 200)
}

/// A trip on from berth 3.
fn next(departure: u16) -> Trip {
    Trip::new(2, 3, departure, 4, 9_999)
}

#[test]
fn a_gap_has_a_sign(rt: HostRuntime) {
    assert_eq!(rt; gap(&first(), &next(260)), 60);
    assert_eq!(rt; gap(&first(), &next(0)), -200);
}

#[test]
fn the_cap_is_the_longest_gap(rt: HostRuntime) {
    let capped = Cap::new(Harbour { turn: 10 }, 60);
    assert_eq!(rt; capped.link_cents(&first(), &next(260)), Some(90));
    assert_eq!(rt; capped.link_cents(&first(), &next(261)), None);
    assert_eq!(rt;
        Harbour { turn: 10 }.link_cents(&first(), &next(261)),
        Some(90)
    );
}

#[test]
fn a_cap_makes_no_link(rt: HostRuntime) {
    let capped = Cap::new(Harbour { turn: 10 }, 60);
    assert_eq!(rt; capped.link_cents(&first(), &next(209)), None);
    assert_eq!(rt; capped.link_cents(&next(0), &first()), None);
}

#[test]
fn the_lower_of_two_caps_holds(rt: HostRuntime) {
    let low_over_high = Cap::new(Cap::new(Harbour { turn: 10 }, 60), 20);
    let high_over_low = Cap::new(Cap::new(Harbour { turn: 10 }, 20), 60);
    assert_eq!(rt; low_over_high.link_cents(&first(), &next(220)), Some(90));
    assert_eq!(rt; low_over_high.link_cents(&first(), &next(221)), None);
    assert_eq!(rt; high_over_low.link_cents(&first(), &next(220)), Some(90));
    assert_eq!(rt; high_over_low.link_cents(&first(), &next(221)), None);
}

#[test]
fn a_cap_serves_what_the_rule_below_serves(rt: HostRuntime) -> Result<(), Fail> {
    let capped = Cap::new(Harbour { turn: 10 }, 0);
    let yard = capped.yard_cents(&first()).ok_or("not served")?;
    assert_eq!(rt; (yard.out, yard.home), (500, 700));
    assert!(rt; capped.yard_cents(&Trip::new(3, 10, 0, 1, 5)).is_none());
    Ok(())
}

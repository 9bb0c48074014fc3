//! Which trips the ferry rule links and serves, and at which cents.
use chart::DrawnChart;
use ferry_rule::FerryRule;
use rules::{Cap, Rule};
use std::alloc::Global;
use std::process::Abort;
use std::test::Fail;
use trips::Trip;

/// The rule over the chart 0–1 of 10, 1–2 of 15 and 0–2 of 30 minutes, with least 5, most 40 and
/// factor 100.
pub(crate) fn harbour_rule(rt: &impl Abort, heap: Global) -> Result<FerryRule, Fail> {
    let drawing = DrawnChart::read(heap, b"1;0;1;10\n2;1;2;15\n3;0;2;30\n")?;
    let mut rule = FerryRule::new(heap)?;
    assert_eq!(rt; rule.remake(drawing.chart.close(), 5, 40, 100), Ok(()));
    Ok(rule)
}

fn trip(number: u16, start: u8, departure: u16, end: u8, arrival: u16) -> Trip {
    Trip::new(number, start, departure, end, arrival)
}

/// Sees at which cents a trip that departs from berth 2 follows one that ends at berth 1 at 65.
fn follows(rt: &impl Abort, rule: &FerryRule, departure: u16, cents: Option<u32>) {
    let first = trip(1, 0, 50, 1, 65);
    let next = trip(2, 2, departure, 0, 200);
    assert_eq!(rt; rule.link_cents(&first, &next), cents);
}

#[test]
fn departures_that_link(rt: HostRuntime) -> Result<(), Fail> {
    let rule = harbour_rule(&rt, rt.alloc())?;
    follows(&rt, &rule, 84, None);
    follows(&rt, &rule, 85, Some(1500));
    follows(&rt, &rule, 120, Some(1500));
    follows(&rt, &rule, 121, None);
    follows(&rt, &rule, 10, None);
    Ok(())
}

#[test]
fn no_way_no_link(rt: HostRuntime) -> Result<(), Fail> {
    let rule = harbour_rule(&rt, rt.alloc())?;
    let first = trip(1, 0, 50, 1, 65);
    assert_eq!(rt; rule.link_cents(&first, &trip(2, 3, 90, 0, 100)), None);
    assert_eq!(rt; rule.link_cents(&first, &trip(2, 32, 90, 0, 100)), None);
    assert_eq!(rt; rule.link_cents(&first, &trip(2, 1, 70, 0, 100)), Some(0));
    assert_eq!(rt; rule.link_cents(&first, &trip(2, 1, 69, 0, 100)), None);
    Ok(())
}

#[test]
fn yard_legs(rt: HostRuntime) -> Result<(), Fail> {
    let rule = harbour_rule(&rt, rt.alloc())?;
    let served = trip(1, 1, 50, 2, 65);
    let yard = rule.yard_cents(&served).ok_or("the trip is not served")?;
    assert_eq!(rt; (yard.out, yard.home), (1000, 2500));
    assert!(rt; rule.yard_cents(&trip(1, 3, 50, 2, 65)).is_none());
    assert!(rt; rule.yard_cents(&trip(1, 1, 50, 3, 65)).is_none());
    assert!(rt; rule.yard_cents(&trip(1, 0, 50, 0, 65)).is_some());
    Ok(())
}

#[test]
fn capped(rt: HostRuntime) -> Result<(), Fail> {
    let rule = Cap::new(harbour_rule(&rt, rt.alloc())?, 30);
    let first = trip(1, 0, 50, 1, 65);
    assert_eq!(rt;
        rule.link_cents(&first, &trip(2, 2, 95, 0, 200)),
        Some(1500)
    );
    assert_eq!(rt; rule.link_cents(&first, &trip(2, 2, 96, 0, 200)), None);
    assert!(rt; rule.yard_cents(&first).is_some());
    Ok(())
}

//! From what a ferry rule is made.
use crate::links::harbour_rule;
use chart::DrawnChart;
use ferry_rule::FerryRule;
use rules::Rule;
use std::alloc::Global;
use std::process::Abort;
use std::test::Fail;
use trips::Trip;

/// Sees that the rule is not made from these terms, and links as before.
fn refuses(
    rt: &impl Abort,
    heap: Global,
    rule: &mut FerryRule,
    least: u16,
    most: u16,
    factor: u16,
) -> Result<(), Fail> {
    let chart = DrawnChart::new(heap)?.close();
    let Err(fault) = rule.remake(chart, least, most, factor) else {
        return Err(Fail::new("the rule was made"));
    };
    assert_eq!(rt; fault.to_string(heap)?.as_str(), "refused 4 planner 0");
    let first = Trip::new(1, 0, 50, 1, 65);
    let next = Trip::new(2, 2, 85, 0, 200);
    assert_eq!(rt; rule.link_cents(&first, &next), Some(1500));
    Ok(())
}

/// Sees that the rule is made from these terms.
fn takes(rt: &impl Abort, heap: Global, least: u16, most: u16, factor: u16) -> Result<(), Fail> {
    let chart = DrawnChart::new(heap)?.close();
    let mut rule = FerryRule::new(heap)?;
    assert_eq!(rt; rule.remake(chart, least, most, factor), Ok(()));
    Ok(())
}

#[test]
fn terms(rt: HostRuntime) -> Result<(), Fail> {
    let heap = rt.alloc();
    takes(&rt, heap, 0, 0, 0)?;
    takes(&rt, heap, 600, 600, 10000)?;
    takes(&rt, heap, 600, 10080, 10000)?;
    let mut rule = harbour_rule(&rt, heap)?;
    refuses(&rt, heap, &mut rule, 601, 700, 1)?;
    refuses(&rt, heap, &mut rule, 5, 4, 1)?;
    refuses(&rt, heap, &mut rule, 5, 10081, 1)?;
    refuses(&rt, heap, &mut rule, 5, 40, 10001)
}

#[test]
fn built_in(rt: HostRuntime) -> Result<(), Fail> {
    let rule = FerryRule::new(rt.alloc())?;
    assert!(rt; rule.yard_cents(&Trip::new(1, 0, 50, 0, 65)).is_some());
    assert!(rt; rule.yard_cents(&Trip::new(1, 0, 50, 1, 65)).is_none());
    assert_eq!(rt;
        rule.link_cents(&Trip::new(1, 0, 50, 1, 65), &Trip::new(2, 1, 65, 1, 70)),
        Some(0)
    );
    assert_eq!(rt;
        rule.link_cents(&Trip::new(1, 0, 50, 1, 65), &Trip::new(2, 1, 66, 1, 70)),
        None
    );
    Ok(())
}

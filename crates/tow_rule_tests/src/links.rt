//! Which trips the tow rule links and serves, and at which cents.
use rules::{Cap, Rule};
use std::alloc::Global;
use std::process::Abort;
use std::test::Fail;
use tow_rule::{ListedLinks, TowRule};
use tow_sheets::Link;
use trips::Trip;

/// Two links, from trip 7 to trip 3 within 10 to 40 minutes and from trip 3 to trip 9 at once.
pub(crate) fn two_links() -> [Link; 2] {
    [
        Link {
            number: 1,
            tail: 7,
            head: 3,
            lower: 10,
            upper: 40,
            cost: 250,
        },
        Link {
            number: 2,
            tail: 3,
            head: 9,
            lower: 0,
            upper: 0,
            cost: 1,
        },
    ]
}

/// The rule of some links, with 500 cents out and 300 home.
pub(crate) fn rule_of<'a>(rt: &impl Abort, heap: Global, links: &'a [Link]) -> TowRule<'a> {
    let mut rule = TowRule::new(heap);
    assert_eq!(rt; rule.remake(links, 500, 300), Ok(()));
    rule
}

/// Sees at which cents a trip that departs then follows one that arrives at 100.
pub(crate) fn follows<R: Rule>(
    rt: &impl Abort,
    rule: &R,
    tail: u16,
    head: u16,
    departure: u16,
    cents: Option<u32>,
) {
    let first = Trip::new(tail, 1, 50, 2, 100);
    let next = Trip::new(head, 2, departure, 1, 20160);
    assert_eq!(rt; rule.link_cents(&first, &next), cents);
}

/// Sees what the rule charges for the ways out and home.
pub(crate) fn charges<R: Rule>(rt: &impl Abort, rule: &R, out: u32, home: u32) -> Result<(), Fail> {
    let trip = Trip::new(5, 1, 50, 2, 100);
    let yard = rule.yard_cents(&trip).ok_or("the trip is not served")?;
    assert_eq!(rt; (yard.out, yard.home), (out, home));
    Ok(())
}

#[test]
fn gaps(rt: HostRuntime) {
    let links = two_links();
    let rule = rule_of(&rt, rt.alloc(), &links);
    follows(&rt, &rule, 7, 3, 109, None);
    follows(&rt, &rule, 7, 3, 110, Some(250));
    follows(&rt, &rule, 7, 3, 140, Some(250));
    follows(&rt, &rule, 7, 3, 141, None);
    follows(&rt, &rule, 3, 9, 99, None);
    follows(&rt, &rule, 3, 9, 100, Some(1));
    follows(&rt, &rule, 3, 9, 101, None);
    follows(&rt, &rule, 3, 9, 0, None);
}

#[test]
fn pairs(rt: HostRuntime) {
    let links = two_links();
    let rule = rule_of(&rt, rt.alloc(), &links);
    follows(&rt, &rule, 3, 7, 120, None);
    follows(&rt, &rule, 7, 9, 100, None);
    follows(&rt, &rule, 7, 7, 120, None);
    follows(&rt, &rule, 1, 2, 120, None);
}

#[test]
fn yard_legs(rt: HostRuntime) -> Result<(), Fail> {
    let links = two_links();
    charges(&rt, &rule_of(&rt, rt.alloc(), &links), 500, 300)
}

#[test]
fn capped(rt: HostRuntime) -> Result<(), Fail> {
    let links = two_links();
    let rule = Cap::new(rule_of(&rt, rt.alloc(), &links), 30);
    follows(&rt, &rule, 7, 3, 109, None);
    follows(&rt, &rule, 7, 3, 130, Some(250));
    follows(&rt, &rule, 7, 3, 131, None);
    charges(&rt, &rule, 500, 300)
}

/// The n-th of many links, whose tails fall while their heads go round: after n minutes, for n cents.
fn nth_link(n: u16) -> Link {
    Link {
        number: n,
        tail: 65535 - n,
        head: n % 7 + 1,
        lower: n % 20160,
        upper: n % 20160,
        cost: u32::from(n),
    }
}

/// Fills a table with the first, the second and so on of many links.
fn fill(table: &mut [Link]) {
    for (link, n) in table.iter_mut().zip(1u16..) {
        *link = nth_link(n);
    }
}

/// Sees that the n-th link is found, and links trips just at its gap.
fn finds_nth(rt: &impl Abort, rule: &TowRule<'_>, n: u16) {
    let link = nth_link(n);
    follows(
        rt,
        rule,
        link.tail,
        link.head,
        n.saturating_add(100),
        Some(link.cost),
    );
    follows(rt, rule, link.tail, link.head, n.saturating_add(99), None);
    follows(rt, rule, link.tail, 8, n.saturating_add(100), None);
}

#[test]
fn many_links(rt: HostRuntime) {
    let mut table = [nth_link(0); 2000];
    fill(&mut table);
    let rule = rule_of(&rt, rt.alloc(), &table);
    for n in 1..2001 {
        finds_nth(&rt, &rule, n);
    }
    follows(&rt, &rule, 65535, 1, 100, None);
    follows(&rt, &rule, 63534, 7, 2101, None);
}

#[test]
fn looked_up(rt: HostRuntime) -> Result<(), Fail> {
    let links = two_links();
    let Ok(listed) = ListedLinks::new(rt.alloc(), &links) else {
        return Err(Fail::new("the links are not listed"));
    };
    assert_eq!(rt; listed.look_up(7, 3), Some(links[0]));
    assert_eq!(rt; listed.look_up(3, 7), None);
    Ok(())
}

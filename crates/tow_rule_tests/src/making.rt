//! From what a tow rule is made.
use crate::links::{charges, follows, rule_of, two_links};
use std::alloc::Global;
use std::process::Abort;
use std::test::Fail;
use tow_rule::{TowRule, Unmade};
use tow_sheets::Link;

/// A link with the least that its numbers may be.
const LEAST: Link = Link {
    number: 0,
    tail: 1,
    head: 1,
    lower: 0,
    upper: 0,
    cost: 0,
};

/// Sees that the rule of two links is not made again from these links and sums, how that shows, and
/// that it stays in force.
fn keeps<'x>(
    rt: &impl Abort,
    heap: Global,
    two: &'x [Link],
    links: &'x [Link],
    out: u32,
    home: u32,
    shown: &str,
) -> Result<(), Fail> {
    let mut rule = rule_of(rt, heap, two);
    let Err(Unmade::Refused(fault)) = rule.remake(links, out, home) else {
        return Err(Fail::new("the rule was not refused"));
    };
    assert_eq!(rt; fault.to_string(heap)?.as_str(), shown);
    follows(rt, &rule, 7, 3, 110, Some(250));
    charges(rt, &rule, 500, 300)
}

/// Sees that no rule is made from these links and sums, and how that shows.
fn refuses(
    rt: &impl Abort,
    heap: Global,
    links: &[Link],
    out: u32,
    home: u32,
    shown: &str,
) -> Result<(), Fail> {
    let two = two_links();
    keeps(rt, heap, &two, links, out, home, shown)
}

/// Sees that a link is refused as out of range.
fn refuses_link(rt: &impl Abort, heap: Global, link: Link) -> Result<(), Fail> {
    refuses(rt, heap, &[LEAST, link], 0, 0, "refused 4 planner 0")
}

/// Sees that the rule is made from a link and sums.
fn takes(rt: &impl Abort, heap: Global, link: Link, out: u32, home: u32) {
    let links = [link];
    let mut rule = TowRule::new(heap);
    assert_eq!(rt; rule.remake(&links, out, home), Ok(()));
}

#[test]
fn edges_of_the_ranges(rt: HostRuntime) {
    let heap = rt.alloc();
    takes(&rt, heap, LEAST, 0, 0);
    takes(
        &rt,
        heap,
        Link {
            number: 65535,
            tail: 65535,
            head: 65535,
            lower: 20160,
            upper: 20160,
            cost: 1_000_000_000,
        },
        1_000_000_000,
        1_000_000_000,
    );
}

#[test]
fn links_out_of_range(rt: HostRuntime) -> Result<(), Fail> {
    let heap = rt.alloc();
    refuses_link(&rt, heap, Link { tail: 0, ..LEAST })?;
    refuses_link(&rt, heap, Link { head: 0, ..LEAST })?;
    refuses_link(&rt, heap, Link { lower: 1, ..LEAST })?;
    refuses_link(
        &rt,
        heap,
        Link {
            upper: 20161,
            ..LEAST
        },
    )?;
    refuses_link(
        &rt,
        heap,
        Link {
            cost: 1_000_000_001,
            ..LEAST
        },
    )
}

#[test]
fn sums_out_of_range(rt: HostRuntime) -> Result<(), Fail> {
    let heap = rt.alloc();
    refuses(&rt, heap, &[LEAST], 1_000_000_001, 0, "refused 4 planner 0")?;
    refuses(&rt, heap, &[LEAST], 0, 1_000_000_001, "refused 4 planner 0")
}

#[test]
fn pairs_twice(rt: HostRuntime) -> Result<(), Fail> {
    let heap = rt.alloc();
    let other = Link { head: 2, ..LEAST };
    let again = Link {
        number: 9,
        upper: 5,
        cost: 7,
        ..LEAST
    };
    refuses(
        &rt,
        heap,
        &[LEAST, other, again],
        0,
        0,
        "refused 7 planner 0",
    )?;
    refuses(
        &rt,
        heap,
        &[other, LEAST, other],
        1_000_000_001,
        0,
        "refused 4 planner 0",
    )?;
    let far = Link {
        upper: 20161,
        ..LEAST
    };
    refuses(&rt, heap, &[LEAST, LEAST, far], 0, 0, "refused 4 planner 0")
}

#[test]
fn turned_round(rt: HostRuntime) {
    let links = [
        Link {
            tail: 1,
            head: 2,
            ..LEAST
        },
        Link {
            tail: 2,
            head: 1,
            ..LEAST
        },
    ];
    let mut rule = TowRule::new(rt.alloc());
    assert_eq!(rt; rule.remake(&links, 0, 0), Ok(()));
}

#[test]
fn built_in(rt: HostRuntime) -> Result<(), Fail> {
    let rule = TowRule::new(rt.alloc());
    charges(&rt, &rule, 0, 0)?;
    follows(&rt, &rule, 1, 2, 100, None);
    Ok(())
}

#[test]
fn made_again(rt: HostRuntime) -> Result<(), Fail> {
    let two = two_links();
    let one = [Link {
        tail: 7,
        head: 3,
        cost: 8,
        ..LEAST
    }];
    let mut rule = rule_of(&rt, rt.alloc(), &two);
    assert_eq!(rt; rule.remake(&one, 1, 2), Ok(()));
    follows(&rt, &rule, 7, 3, 100, Some(8));
    follows(&rt, &rule, 7, 3, 110, None);
    charges(&rt, &rule, 1, 2)
}

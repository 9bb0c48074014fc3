//! The tow rule, made and made again.
ghost use Rattle.std.specs.Prelude.{[]};
ghost use Rattle.tow_rule.specs.Making.{MadeFrom, Made, Remade};

use crate::listed::ListedLinks;
use crate::rule::TowRule;
use crate::unmade::Unmade;
use faults::{Layer, Refusal};
use rules::YardCents;
use std::alloc::Global;
use tow_sheets::{Link, MOST_CENTS};

impl<'a> TowRule<'a> {
    /// The built-in rule: no links, and nothing for the ways out and home.
    pub fn new(heap: Global) -> TowRule<'a>
        ensures { MadeFrom result [] 0 0 }
    {
        TowRule {
            heap,
            listed: ListedLinks::none(heap),
            yard: YardCents { out: 0, home: 0 },
        }
    }

    /// The rule with these links and sums.
    fn made(heap: Global, links: &'a [Link], out: u32, home: u32) -> Result<TowRule<'a>, Unmade>
        ensures { Made links.now out home result }
    {
        if out > MOST_CENTS || home > MOST_CENTS {
            return Err(Layer::Planner.fault(Refusal::OutOfRange, 0).into());
        }
        let listed = ListedLinks::new(heap, links)?;
        Ok(TowRule {
            heap,
            listed,
            yard: YardCents { out, home },
        })
    }

    /// Makes the rule again from links and sums. What is out of range is refused, and then a pair of
    /// trips that is listed twice. A refusal, or want of memory for the index of the links, leaves the
    /// rule in force as it was.
    pub fn remake(&mut self, links: &'a [Link], out: u32, home: u32) -> Result<(), Unmade>
        ensures { Remade self.old links.now out home result self.new }
    {
        let rule = TowRule::made(self.heap, links, out, home)?;
        *self = rule;
        Ok(())
    }
}

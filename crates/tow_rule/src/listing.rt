//! A list of links, made and looked up.
ghost use Rattle.std.specs.Prelude.{◌≡◌, []};
ghost use Rattle.tow_rule.specs.Listed.{listed, listed_link};
ghost use Rattle.tow_rule.specs.Places.{StandsAt};
ghost use Rattle.tow_rule.specs.Making.{Listing};

use crate::index::index_of;
use crate::listed::ListedLinks;
use crate::ranges::some_outside;
use crate::unmade::Unmade;
use faults::{Layer, Refusal};
use std::alloc::Global;
use std::collections::BTreeMap;
use tow_sheets::Link;
use trips::{Trip, gap_within};

impl<'a> ListedLinks<'a> {
    /// The list without links.
    pub fn none(heap: Global) -> ListedLinks<'a>
        ensures { result.links.now ≡ [] }
    {
        ListedLinks {
            links: &[],
            index: BTreeMap::new(heap),
        }
    }

    /// The list of these links. A number out of its range is refused, and then a pair of trips that is
    /// listed twice.
    pub fn new(heap: Global, links: &'a [Link]) -> Result<ListedLinks<'a>, Unmade>
        ensures { Listing links.now result }
    {
        if some_outside(links) {
            return Err(Layer::Planner.fault(Refusal::OutOfRange, 0).into());
        }
        let index = index_of(heap, links)?;
        Ok(ListedLinks { links, index })
    }

    /// The place of the listed link of the trips with these numbers.
    // Inlined into the search's loop over tails, it took up to a third more time.
    #[inline(never)]
    fn place(&self, tail: u16, head: u16) -> Option<usize>
        ensures { StandsAt self.now.links.now tail head result }
    {
        self.index.get(&(tail, head)).copied()
    }

    /// The listed link of the trips with these numbers, found in as many steps as the logarithm of how
    /// many links there are.
    pub fn look_up(&self, tail: u16, head: u16) -> Option<Link>
        ensures { result ≡ listed self.now.links.now tail head }
    {
        self.place(tail, head).map(|place| self.links[place])
    }

    /// The cents of the link from one trip to another: the cost of the listed link of the two, where
    /// the gap between them is from its lower to its upper bound.
    pub fn link_cents(&self, from: &Trip, to: &Trip) -> Option<u32>
        ensures { result ≡ listed_link self.now.links.now from.now to.now }
    {
        let link = self.look_up(from.number, to.number)?;
        gap_within(from, to, u32::from(link.lower), u32::from(link.upper)).then_some(link.cost)
    }
}

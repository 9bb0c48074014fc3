//! The index of a list of links, from the tail and head of each to its place.
ghost use Rattle.tow_rule.specs.Indexing.{Entered, Indexed};

use crate::unmade::Unmade;
use faults::{Layer, Refusal};
use std::alloc::Global;
use std::collections::BTreeMap;
use tow_sheets::Link;

/// Enters a link into the index of the links before it, which are as many as `place`.
fn enter(index: &mut BTreeMap<(u16, u16), usize>, link: &Link, place: usize) -> Result<(), Unmade>
    ensures { Entered index.old link.now place result index.new }
{
    let earlier = index.insert(link.pair(), place)?;
    if earlier.is_some() {
        return Err(Layer::Planner.fault(Refusal::ListedTwice, 0).into());
    }
    Ok(())
}

/// The index of a list, unless a pair of trips is listed twice.
pub(crate) fn index_of(heap: Global, links: &[Link]) -> Result<BTreeMap<(u16, u16), usize>, Unmade>
    ensures { Indexed links.now result }
{
    let mut index = BTreeMap::new(heap);
    for (place, link) in links.iter().enumerate() {
        enter(&mut index, link, place)?;
    }
    Ok(index)
}

//! A list of links that is looked up by the pair of trips.
ghost use Rattle.std.specs.Prelude.{◌≡◌, false};
ghost use Rattle.std.proofs.Props.{props};
ghost use Rattle.std.specs.List.{list_any};
ghost use Rattle.tow_rule.specs.Places.{InOrder, Places};
ghost use Rattle.tow_rule.specs.Refusals.{outside, listed_twice};

use std::collections::BTreeMap;
use tow_sheets::Link;

/// A list of links, none out of range and no pair of trips twice, with an index from the tail and
/// head of each link to its place in the list.
#[derive(Drop)]
pub struct ListedLinks<'a> {
    pub(crate) links: &'a [Link],
    // It has places and not links, so that the list that is lent stands once.
    pub(crate) index: BTreeMap<(u16, u16), usize>,
    ghost ranged: { list_any outside links.now ≡ false },
    ghost once: { listed_twice links.now ≡ false },
    ghost in_order: { InOrder index } by { Prim.hlevel props },
    ghost places: { Places index links.now },
}

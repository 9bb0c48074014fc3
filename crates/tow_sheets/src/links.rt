//! The links sheet: a line has a link's number, the tail trip, the head trip, the least and the most
//! minutes between them, and the cost in cents.
ghost use Rattle.std.specs.Prelude.{◌≡◌};
ghost use Rattle.std.specs.List.{list_any};
ghost use Rattle.sheet.specs.Says.{Fills};
ghost use Rattle.tow_sheets.specs.Links.{link_in_range, link_rules, same_pair};
ghost use Rattle.std.proofs.Common.{rules};

use crate::charges::MOST_CENTS;
use faults::{Layer, Refusal};
use sheet::{Filling, SheetKind, fill_sheet};

/// That one tow may follow another: the head trip after the tail trip, if the gap between them is
/// from `lower` to `upper` minutes.
#[derive(Clone, Copy, Default, PartialEq, Eq, Debug)]
pub struct Link {
    pub number: u16,
    /// The number of the trip that is followed.
    pub tail: u16,
    /// The number of the trip that follows.
    pub head: u16,
    pub lower: u16,
    pub upper: u16,
    /// In cents.
    pub cost: u32,
}

impl Link {
    /// The numbers of the two trips, the tail's first.
    pub fn pair(&self) -> (u16, u16)
        ensures { result ≡ (self.now.tail, self.now.head) }
    {
        (self.tail, self.head)
    }

    /// Whether the numbers of the link are within their ranges.
    pub fn is_in_range(self) -> bool
        ensures { result ≡ link_in_range self }
    {
        self.tail >= 1
            && self.head >= 1
            && self.lower <= self.upper
            && self.upper <= 20160
            && self.cost <= MOST_CENTS
    }
}

/// The links sheet has at most so many records.
pub const MOST_LINKS: usize = 2000;

/// The kind of the links sheet: at most 2,000 links, and no pair of trips twice.
#[derive(Clone, Copy)]
pub struct LinksSheet;

/// Whether a link of the same trips is among these.
fn is_listed(links: &[Link], new: &Link) -> bool
    ensures { result ≡ list_any (λ k. same_pair k new.now) links.now }
{
    links.iter().any(|link| link.pair() == new.pair())
}

impl SheetKind for LinksSheet {
    type Record = Link;

    ghost rules = { λ _. link_rules };

    ghost at_most_eight_fields = { Prim.search rules };

    fn layer(&self) -> Layer {
        Layer::Links
    }

    fn takes(&self, fields: usize) -> bool {
        fields == 6
    }

    fn made(&self, _line: usize, numbers: &[u64]) -> Option<Link> {
        let [number, tail, head, lower, upper, cost] = numbers else {
            return None;
        };
        let link = Link {
            number: u16::try_from(*number).ok()?,
            tail: u16::try_from(*tail).ok()?,
            head: u16::try_from(*head).ok()?,
            lower: u16::try_from(*lower).ok()?,
            upper: u16::try_from(*upper).ok()?,
            cost: u32::try_from(*cost).ok()?,
        };
        link.is_in_range().then_some(link)
    }

    fn clash(&self, earlier: &[Link], new: &Link) -> Option<Refusal> {
        is_listed(earlier, new).then_some(Refusal::ListedTwice)
    }

    fn most(&self) -> usize {
        MOST_LINKS
    }

    fn least(&self) -> usize {
        0
    }
}

/// Reads the links sheet into a table, from its first entry on.
pub fn read_links(sheet: &[u8], table: &mut [Link]) -> Filling
    ensures { Fills link_rules sheet.now table.old result.count result.fault table.new }
{
    fill_sheet(&LinksSheet, sheet, table)
}

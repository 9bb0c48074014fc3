//! The tow rule.
ghost use Rattle.std.specs.Prelude.{◌≤◌};

use crate::listed::ListedLinks;
use rules::YardCents;
use std::alloc::Global;

/// The tow rule: the listed links, and the cents out from the yard and home to it, which are the
/// same for every trip.
#[derive(Drop)]
pub struct TowRule<'a> {
    pub(crate) heap: Global,
    pub(crate) listed: ListedLinks<'a>,
    pub(crate) yard: YardCents,
    ghost out_bound: { yard.out ≤ 1000000000 },
    ghost home_bound: { yard.home ≤ 1000000000 },
}

//! The tail that is reached next.
ghost use Rattle.std.specs.Prelude.{◌≡◌};
ghost use Rattle.planner.specs.Searches.{IsLeast};

use super::tails::Tails;
use rows::Rowed;

/// A tail of least slack among those that are not reached and have a link to a reached head.
pub(crate) fn least<V: Rowed>(tails: &Tails<V>) -> Option<usize>
    ensures { IsLeast V.Rowed.row tails.now result }
{
    let mut best: Option<usize> = None;
    for (i, slack) in tails.slack.iter().enumerate() {
        if tails.is_open(i) {
            // A `match` and no `is_none_or`: of what a closure answers at a best that is not known yet a proof knows nothing.
            match best {
                Some(m) => {
                    if slack.is_below(tails.slack[m]) {
                        best = Some(i);
                    }
                }
                None => best = Some(i),
            }
        }
    }
    best
}

//! The flip that gains one link.
ghost use Rattle.std.specs.Prelude.{◌≡◌, ◌<◌, length};
ghost use Rattle.matchings.specs.Tables.{at};
ghost use Rattle.matchings.specs.Sound.{Matching};
ghost use Rattle.matchings.specs.Flips.{Climb, Flipped};
ghost use Rattle.planner.specs.Searches.{trips};

use super::links::Links;
use super::tails::Tails;

/// Links the tail `last`, which is reached and has no head, to the head by which it was reached. The tail that loses
/// this head takes the one by which it was reached itself, and so on, to a head that had no tail.
pub(crate) fn flip<V>(last: usize, tails: &Tails<V>, links: &mut Links)
    requires tails_long { length tails.now.reached.now ≡ trips links.old }
    requires within { last < trips links.old }
    requires numbered { at tails.now.reached.now last < 65535 }
    requires loose { at links.old.next.now last ≡ 65535 }
    requires matching { Matching (trips links.old) links.old.next.now links.old.prior.now }
    requires climb { Climb (trips links.old) links.old.prior.now tails.now.reached.now tails.now.via.now (at tails.now.reached.now last) }
    ensures { Flipped (trips links.old) tails.now.reached.now tails.now.via.now links.old.next.now links.old.prior.now links.new.next.now links.new.prior.now }
{
    let mut i = last;
    'walk: while let Some(j) = tails.via_of(i) {
        let loser = links.tail_of(j);
        links.link(i, j);
        let Some(k) = loser else {
            return;
        };
        links.take_head(k);
        i = k;
    }
}

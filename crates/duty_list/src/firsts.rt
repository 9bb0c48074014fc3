//! Where the duties of a table begin.
ghost use Rattle.std.specs.Prelude.{◌≡◌, ◌==◌};
ghost use Rattle.std.specs.Iterator.{YieldsFirst, item_count};
ghost use Rattle.duties.specs.Duties.{times};
ghost use Rattle.duties.specs.Tables.{firsts};
ghost use Rattle.duty_list.specs.Firsts.{firsts_between};
ghost use Rattle.duty_list.specs.ToCome.{firsts_left};

use std::ops::Range;

/// Hands on the position of the first trip of one duty after the other, in board order.
#[derive(Drop)]
pub struct Duties<'a> {
    successors: &'a [u16],
    /// The positions that are still to be looked at.
    positions: Range<usize>,
}

/// Whether a duty begins with the trip at a position: it stands nowhere in the table.
fn is_first(successors: &[u16], position: usize) -> bool
    ensures { result ≡ (times position successors.now == 0) }
{
    !successors
        .iter()
        .any(|entry| usize::from(*entry) == position)
}

/// Takes positions from the front, up to the first that a duty begins with.
fn take_first(successors: &[u16], positions: &mut Range<usize>) -> Option<usize>
    ensures { YieldsFirst (λ r. firsts_between successors.now r.start r.end) positions.old result positions.new }
{
    positions.find(|position| is_first(successors, *position))
}

impl<'a> Duties<'a> {
    /// All duties of a table.
    #[tactic(auto, using(crate::proofs::Looking::all_firsts))]
    pub fn new(successors: &'a [u16]) -> Duties<'a>
        ensures { firsts_left result ≡ firsts successors.now }
    {
        Duties {
            successors,
            positions: 0..successors.len(),
        }
    }
}

impl Iterator for Duties<'_> {
    type Item = usize;

    ghost next_gives = { YieldsFirst firsts_left };

    ghost remaining = { item_count firsts_left };

    /// The position of the first trip of the next duty; None after the last duty.
    fn next(&mut self) -> Option<usize> {
        take_first(self.successors, &mut self.positions)
    }
}

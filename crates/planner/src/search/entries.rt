//! Entries of the tables of positions, by which trips are named: numbers, since plan is lent tables of numbers.
ghost use Rattle.std.specs.Prelude.{◌≡◌, ℕ, ◌<◌, length, slice_set};
ghost use Rattle.matchings.specs.Tables.{at};
ghost use Rattle.planner.specs.Entries.{IsEntry};

/// The entry of a table where there is no trip.
const NONE: u16 = 65535;

/// The trip that an entry names, if it names one.
pub(crate) fn entry(table: &[u16], i: usize) -> Option<usize>
    requires { i < length table.now }
    ensures { IsEntry (at table.now i) result }
{
    match table[i] {
        NONE => None,
        trip => Some(usize::from(trip)),
    }
}

/// Lets an entry name a trip.
pub(crate) fn name(table: &mut [u16], i: usize, trip: usize)
    requires within { i < length table.old }
    requires few { trip < 65535 }
    ensures { table.new ≡ slice_set table.old i trip }
{
    // A position below 65,535 is cast without loss, so there is no error to pass on.
    table[i] = trip as u16;
}

/// Lets an entry name no trip.
pub(crate) fn clear_entry(table: &mut [u16], i: usize)
    requires { i < length table.old }
    ensures { table.new ≡ slice_set table.old i 65535 }
{
    table[i] = NONE;
}

/// Lets no entry name a trip.
pub(crate) fn clear(table: &mut [u16])
    ensures { (k : ℕ) → k < length table.new → at table.new k ≡ 65535 }
{
    table.fill(NONE);
}

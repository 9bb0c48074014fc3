//! Why a rule could not be made.
ghost use Rattle.std.specs.Prelude.{◌≡◌};
ghost use Rattle.tow_rule.specs.declared.unmade.Unmade.TheVariants.{NoMemory, Refused};

use faults::Fault;
use std::alloc::AllocFailed;

/// Why a rule, or the list that it goes by, could not be made.
#[derive(Clone, Copy, PartialEq, Eq, Debug)]
pub enum Unmade {
    /// What it was to be made from is refused.
    Refused(Fault),
    /// There was no memory for the index of the links. It is asked for only when every number is in
    /// its range, and a pair that is listed twice may then stand undiscovered.
    NoMemory,
}

impl From<Fault> for Unmade {
    ghost from_gives = { λ fault why. why ≡ Refused fault };

    fn from(fault: Fault) -> Unmade {
        Unmade::Refused(fault)
    }
}

impl<T: Drop> From<AllocFailed<T>> for Unmade {
    ghost from_gives = { λ _ why. why ≡ NoMemory };

    fn from(_failed: AllocFailed<T>) -> Unmade {
        Unmade::NoMemory
    }
}

//! A fault: what was refused, by which layer, and where.
ghost use Rattle.std.specs.Prelude.{◌≡◌, IfOk, Some, string_bytes};
ghost use Rattle.faults.specs.Shown.{fault_line, fault_text};

use crate::layer::Layer;
use crate::refusal::Refusal;
use std::alloc::{AllocError, Global};
use std::fmt;

/// A refusal with the layer that gave it and the place it speaks of. The layer does not follow from
/// the refusal, so the fault carries it.
#[derive(Clone, Copy, PartialEq, Eq, Debug)]
pub struct Fault {
    pub refusal: Refusal,
    pub layer: Layer,
    /// The line, trip number, limit, number of duties or offset that the refusal speaks of, or 0
    /// where it speaks of the whole.
    pub place: usize,
}

impl Fault {
    /// The line that is printed of the fault.
    pub fn line(&self, heap: Global) -> Result<String, AllocError>
        ensures { IfOk result (λ text. string_bytes text ≡ fault_line self.now) }
    {
        format!(in heap; "{self}\n")
    }
}

impl fmt::Display for Fault {
    ghost output = { λ f. Some (fault_text f) };

    fn fmt<W: fmt::Write>(&self, f: &mut fmt::Formatter<W>) -> fmt::Result {
        let number = self.refusal.number();
        write!(f, "refused {number} {} {}", self.layer, self.place)
    }
}

#[cfg(test)]
mod tests {
    use super::*;

    #[test]
    fn a_fault_has_a_line(rt: HostRuntime) -> Result<(), AllocError> {
        let fault = Layer::Board.fault(Refusal::NumberDoesNotStand, 5);
        assert_eq!(rt; fault.line(rt.alloc())?.as_str(), "refused 18 board 5\n");
        Ok(())
    }
}

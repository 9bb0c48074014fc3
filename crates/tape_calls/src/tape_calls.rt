//! What a whole tape gives.
use calls::Call;
use faults::Fault;

/// The calls of the commands before the first fault, in the tape's order, and the fault.
#[derive(Drop)]
pub struct TapeCalls {
    pub calls: Vec<Call>,
    pub fault: Option<Fault>,
}

use ppp_outside::{Gate, GatePlace};

/// A gate that holds nobody back.
#[derive(Clone, Copy, Debug, PartialEq, Eq)]
pub struct MemoryGate;

impl Gate for MemoryGate {
    fn pass(&self, _place: GatePlace) {}
}

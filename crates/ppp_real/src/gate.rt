use ppp_outside::{Gate, GatePlace};

/// The program's gate, which holds nobody back.
#[derive(Clone, Copy, Debug, PartialEq, Eq)]
pub struct RealGate;

impl Gate for RealGate {
    fn pass(&self, _place: GatePlace) {}
}

ghost use Rattle.ppp_outside.specs.Iface.{GivesPacket, IfaceInState, IfaceOutState, TakesPacket};

use ppp_base::{Datagram, Unit};

/// A datagram of a unit.
#[derive(Debug, PartialEq, Eq, Drop)]
pub struct UnitDatagram {
    pub unit: Unit,
    pub datagram: Datagram,
}

/// What taking a packet answers.
#[derive(Clone, Copy, Debug, PartialEq, Eq)]
pub enum IfaceGot {
    /// A datagram of this unit, at least one octet, stands in the buffer.
    Packet(Unit),
    /// Nothing came within the wait, or a message that is no packet: of no unit, without an octet, or too long.
    Quiet,
    /// The outside failed.
    Failed,
}

/// The packets that come in by the interfaces of all units.
pub trait IfaceIn: Drop {
    /// The packets that are left, where this socket tells them, and its counts.
    ghost state: { Self → IfaceInState };

    /// Takes the next message, and waits for it so many milliseconds at most.
    fn take(&mut self, buf: &mut Datagram, wait_ms: u32) -> IfaceGot
        ensures { TakesPacket (state self.old) (state self.new) result buf.new };
}

/// What giving a packet answers.
#[derive(Clone, Copy, Debug, PartialEq, Eq)]
pub enum Gave {
    /// The datagram was given.
    Gave,
    /// The outside failed. It was not given.
    Failed,
}

/// Where packets go out, by the interfaces of all units.
pub trait IfaceOut: Drop {
    /// The packets that were given, where this socket tells them, and its counts.
    ghost state: { Self → IfaceOutState };

    /// Gives a datagram of this unit.
    fn give(&mut self, unit: Unit, datagram: &Datagram) -> Gave
        ensures { GivesPacket (state self.old) (state self.new) unit datagram.now result };
}

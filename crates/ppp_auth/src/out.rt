ghost use Rattle.std.specs.Prelude.{◌≡◌, [], ◌∷◌, ◌++◌, ◌<◌, length};
ghost use Rattle.ppp_auth.specs.Phase.{nothing};

use arrayvec::ArrayVec;
use ppp_base::Name;
use ppp_packet::Packet;
use std::marker::Model;

/// A packet, and the number of its protocol.
#[derive(Debug, Default, PartialEq, Eq, Drop)]
pub struct PhasePacket {
    pub protocol: u16,
    pub packet: Packet,
}

/// What is sent at one call, in order: at most two packets. Contracts see it as its list.
#[derive(Debug, Drop)]
pub struct PhasePackets {
    list: ArrayVec<PhasePacket, 2>,
}

impl Model for PhasePackets {
    ghost use Rattle.std.specs.Prelude.{List};
    ghost use Rattle.ppp_auth.specs.declared.out.PhasePacket.{PhasePacket};

    ghost Value = { List PhasePacket };

    ghost view = { λ p. p.list.items };
}

impl PhasePackets {
    /// None.
    pub fn new() -> PhasePackets
        ensures { result ≡ [] }
    {
        PhasePackets {
            list: ArrayVec::new(),
        }
    }

    /// Appends a packet.
    pub fn push(&mut self, sent: PhasePacket)
        requires { length self.old < 2 }
        ensures { self.new ≡ self.old ++ sent ∷ [] }
    {
        self.list.push(sent);
    }

    /// The packets, in order.
    pub fn as_slice(&self) -> &[PhasePacket]
        ensures { result.now ≡ self.now }
    {
        self.list.as_slice()
    }
}

impl From<ArrayVec<PhasePacket, 2>> for PhasePackets {
    ghost from_gives = { λ list packets. packets ≡ list.items };

    fn from(list: ArrayVec<PhasePacket, 2>) -> PhasePackets {
        PhasePackets { list }
    }
}

impl From<PhasePackets> for ArrayVec<PhasePacket, 2> {
    ghost from_gives = { λ packets list. list.items ≡ packets };

    fn from(packets: PhasePackets) -> ArrayVec<PhasePacket, 2> {
        packets.list
    }
}

/// What a phase answers to a call.
#[derive(Debug, Drop)]
pub struct PhaseOut {
    /// What is sent: the judge's packet first.
    pub packets: PhasePackets,
    /// The peer's name, at the call at which it has passed.
    pub peer_passed: Option<Name>,
}

impl PhaseOut {
    // Nothing is told.
    pub(crate) fn nothing() -> PhaseOut
        ensures { result ≡ nothing }
    {
        PhaseOut {
            packets: PhasePackets::new(),
            peer_passed: None,
        }
    }
}

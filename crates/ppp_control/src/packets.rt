ghost use Rattle.std.specs.Prelude.{◌≡◌, ◌<◌, ◌≤◌, [], ◌∷◌, ◌++◌, length, option_to_list};

use arrayvec::ArrayVec;
use ppp_packet::Packet;
use std::marker::Model;

/// A few packets, in the order in which they are sent.
#[derive(Drop)]
pub struct Packets {
    list: ArrayVec<Packet, 3>,
}

impl Model for Packets {
    ghost use Rattle.std.specs.Prelude.{List, length, ◌≤◌};
    ghost use Rattle.ppp_packet.specs.declared.packet.Packet.{Packet};

    ghost Value = { List Packet };

    ghost view = { λ p. p.list.items };

    ghost invariant = { λ p. length p.list.items ≤ 3 };
}

impl Packets {
    /// No packets.
    pub fn new() -> Packets
        ensures { result ≡ [] }
    {
        Packets {
            list: ArrayVec::new(),
        }
    }

    /// Appends a packet.
    pub fn push(&mut self, packet: Packet)
        requires { length self.old < 3 }
        ensures { self.new ≡ self.old ++ packet ∷ [] }
    {
        self.list.push(packet);
    }

    /// Appends a packet, if there is one.
    pub fn push_some(&mut self, packet: Option<Packet>)
        requires { length self.old < 3 }
        ensures { self.new ≡ self.old ++ option_to_list packet }
    {
        if let Some(packet) = packet {
            self.list.push(packet);
        }
    }

    /// The packets.
    pub fn as_slice(&self) -> &[Packet]
        ensures packets { result.now ≡ self.now }
        ensures few { length result.now ≤ 3 }
    {
        self.list.as_slice()
    }
}

impl From<ArrayVec<Packet, 3>> for Packets {
    ghost from_gives = { λ list packets. packets ≡ list.items };

    fn from(list: ArrayVec<Packet, 3>) -> Packets {
        Packets { list }
    }
}

impl From<Packets> for ArrayVec<Packet, 3> {
    ghost from_gives = { λ packets list. list.items ≡ packets };

    fn from(packets: Packets) -> ArrayVec<Packet, 3> {
        packets.list
    }
}

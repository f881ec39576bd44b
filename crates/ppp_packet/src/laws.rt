//! What follows from the contracts, for a reader.

ghost use Rattle.std.specs.Prelude.{◌≡◌, ◌++◌, ◌↔◌, Some};
ghost use Rattle.ppp_packet.specs.PacketOf.{PacketOf, laid_packet, packet_in};
ghost use Rattle.ppp_packet.specs.declared.packet.Packet.{Packet};

use crate::packet::Packet;

/// What a packet is written as, with any padding behind it, is that packet and no other: so it is read again.
pub fn packet_back(packet: &Packet, _padding: &[u8])
    ensures back { PacketOf (laid_packet packet.now ++ _padding.now) packet.now }
    ensures alone { (other : Packet) → PacketOf (laid_packet packet.now ++ _padding.now) other
        → other ≡ packet.now }
{
    let _bounded = packet.body.as_slice();
}

/// The function that gives the packet of some octets is the grammar of packets.
pub fn the_function_is_the_grammar(bytes: &[u8])
    ensures { (packet : Packet) → (packet_in bytes.now ≡ Some packet) ↔ PacketOf bytes.now packet }
{
    let _read = Packet::read(bytes);
}

// What is sent on the line.
ghost use Rattle.std.specs.Prelude.{◌≡◌};
ghost use Rattle.ppp_packet.specs.PacketOf.{laid_packet};
ghost use Rattle.ppp_base.specs.declared.protocol.TheConstants.{LCP};
ghost use Rattle.ppp_link_rules.specs.Sending.{frame_sent, packets_sent, phase_sent};
ghost use Rattle.ppp_link_core.specs.Standing.{Does, Lives};

use crate::link_core::LinkCore;
use ppp_auth::PhasePackets;
use ppp_base::protocol;
use ppp_control::Packets;
use ppp_outside::Spawner;
use ppp_packet::Packet;

impl<S: Spawner> LinkCore<S> {
    /// A frame is sent, or dropped where it doesn't fit.
    #[tactic(auto, using(crate::proofs::SendFacts::sent_does, crate::proofs::SendFacts::sent_lives))]
    pub fn send(&mut self, protocol: u16, information: &[u8])
        requires lives { Lives self.old }
        ensures does { Does (frame_sent protocol information.now) self.old self.new }
        ensures rest { self.new ≡ record self.old { out = self.new.out } }
        ensures lives { Lives self.new }
    {
        let settings = self.settings();
        self.out.put_frame(&settings, protocol, information);
    }

    // A packet of a protocol.
    fn send_packet(&mut self, protocol: u16, packet: &Packet)
        requires lives { Lives self.old }
        ensures does { Does (frame_sent protocol (laid_packet packet.now)) self.old self.new }
        ensures rest { self.new ≡ record self.old { out = self.new.out } }
        ensures lives { Lives self.new }
    {
        let octets = packet.to_frame();
        self.send(protocol, octets.as_slice());
    }

    // Packets of LCP, in order.
    pub(crate) fn send_packets(&mut self, packets: &Packets)
        requires lives { Lives self.old }
        ensures does { Does (packets_sent packets.now) self.old self.new }
        ensures rest { self.new ≡ record self.old { out = self.new.out } }
        ensures lives { Lives self.new }
    {
        let packets = packets.as_slice();
        for packet in packets {
            self.send_packet(protocol::LCP, packet);
        }
    }

    // Packets of authentication, in order.
    pub(crate) fn send_phase(&mut self, packets: &PhasePackets)
        requires lives { Lives self.old }
        ensures does { Does (phase_sent packets.now) self.old self.new }
        ensures rest { self.new ≡ record self.old { out = self.new.out } }
        ensures lives { Lives self.new }
    {
        let packets = packets.as_slice();
        for packet in packets {
            self.send_packet(packet.protocol, &packet.packet);
        }
    }
}

ghost use Rattle.std.specs.Prelude.{◌≡◌, drop};
ghost use Rattle.ppp_memory.specs.Iface.{after_take, answer_of, buffer_after, first_packet, state_of};
ghost use Rattle.ppp_outside.specs.Iface.{TakesPacket};
ghost use Rattle.ppp_outside.specs.Messages.{packet_of};

use ppp_base::Datagram;
use ppp_outside::{IfaceGot, IfaceIn, UnitDatagram, packet_in};
use std::marker::Model;

/// A message of a packet socket: an octet with the unit's number, and a datagram.
#[derive(Debug, Drop)]
pub struct Message {
    octets: Vec<u8>,
}

impl Model for Message {
    ghost use Rattle.std.specs.Prelude.{ℕ, List};

    ghost Value = { List ℕ };

    ghost view = { λ m. m.octets.items };
}

impl Message {
    /// A message of these octets.
    pub fn new(octets: Vec<u8>) -> Message
        ensures { result ≡ octets.items }
    {
        Message { octets }
    }

    // The packet that it is.
    fn packet(&self) -> Option<UnitDatagram>
        ensures { result ≡ packet_of self.now }
    {
        packet_in(self.octets.as_slice())
    }
}

/// The reading half of a packet socket in memory, which takes the messages of a list. Some calls fail.
#[derive(Drop)]
pub struct MemoryIfaceIn {
    messages: Vec<Message>,
    at: usize,
    failing: Vec<u64>,
    calls: u64,
    packets: u64,
    faults: u64,
}

impl Model for MemoryIfaceIn {
    ghost use Rattle.std.specs.Prelude.{◌≤◌, drop, vec_len};
    ghost use Rattle.ppp_memory.specs.Iface.{IfaceInInMemory};

    ghost Value = { IfaceInInMemory };

    ghost view = { λ s. record { messages = drop s.at s.messages.items; failing = s.failing.items; calls = s.calls; packets = s.packets; faults = s.faults } };

    ghost invariant = { λ s. s.at ≤ vec_len s.messages };
}

impl MemoryIfaceIn {
    /// The reading half with these messages, and then quiet. The calls with the numbers in `failing` fail, where the
    /// first call is number 1.
    pub fn new(messages: Vec<Message>, failing: Vec<u64>) -> MemoryIfaceIn
        ensures { result ≡ record { messages = messages.items; failing = failing.items; calls = 0; packets = 0; faults = 0 } }
    {
        MemoryIfaceIn {
            messages,
            at: 0,
            failing,
            calls: 0,
            packets: 0,
            faults: 0,
        }
    }

    // The packet of the next message.
    fn first(&self) -> Option<UnitDatagram>
        ensures { result ≡ first_packet self.now.messages }
    {
        self.messages.get(self.at)?.packet()
    }

    // Goes on behind the next message.
    #[tactic(auto, using(crate::proofs::PlaceLemmas::one_on, crate::proofs::PlaceLemmas::stays_at_end))]
    fn go_on(&mut self)
        ensures { self.new ≡ record self.old { messages = drop 1 self.old.messages } }
    {
        if self.at < self.messages.len() {
            self.at += 1;
        }
    }

    // Takes the next message.
    fn step(&mut self, buf: &mut Datagram) -> IfaceGot
        ensures answer { result ≡ answer_of self.old }
        ensures buffer { buf.new ≡ buffer_after self.old buf.old }
        ensures after { self.new ≡ after_take self.old result }
    {
        self.calls = self.calls.saturating_add(1);
        if self.failing.contains(&self.calls) {
            self.faults = self.faults.saturating_add(1);
            return IfaceGot::Failed;
        }
        let first = self.first();
        self.go_on();
        match first {
            None => IfaceGot::Quiet,
            Some(packet) => {
                self.packets = self.packets.saturating_add(1);
                *buf = packet.datagram;
                IfaceGot::Packet(packet.unit)
            }
        }
    }
}

impl IfaceIn for MemoryIfaceIn {
    ghost state = { state_of };

    fn take(&mut self, buf: &mut Datagram, _wait_ms: u32) -> IfaceGot
        ensures takes { TakesPacket (state_of self.old) (state_of self.new) result buf.new }
        ensures answer { result ≡ answer_of self.old }
        ensures buffer { buf.new ≡ buffer_after self.old buf.old }
        ensures after { self.new ≡ after_take self.old result }
    {
        self.step(buf)
    }
}

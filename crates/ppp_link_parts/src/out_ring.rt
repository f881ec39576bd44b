ghost use Rattle.std.specs.Prelude.{◌≡◌, [], take, drop, IfOk};
ghost use Rattle.ppp_hdlc.specs.Encoding.{encoding};
ghost use Rattle.ppp_link_rules.specs.Errands.{is_none_waiting};
ghost use Rattle.ppp_link_rules.specs.Rings.{put_out};
ghost use Rattle.ppp_link_rules.specs.declared.limits.TheConstants.{MOST_WRITTEN};

use circular_buffer::HeapCircularBuffer;
use ppp_base::{NoMemory, Octets, SendSettings};
use ppp_hdlc::frame_into;
use ppp_link_rules::limits::OUT_RING;
use std::alloc::Global;
use std::marker::Model;

// The octets that wait to be written on a line, and how many things found no room there.
#[derive(Drop)]
pub struct OutRing {
    octets: HeapCircularBuffer<u8>,
    dropped: u64,
}

impl Model for OutRing {
    ghost use Rattle.std.specs.Prelude.{ℕ, ◌≡◌};
    ghost use Rattle.ppp_base.specs.RingAfter.{Ring};
    ghost use Rattle.ppp_link_rules.specs.declared.limits.TheConstants.{OUT_RING};

    ghost Value = { Ring ℕ };

    ghost view = { λ r. record { waiting = r.octets.items; dropped = r.dropped } };

    ghost invariant = { λ r. r.octets.capacity ≡ OUT_RING };
}

impl OutRing {
    /// An empty one. All its room is taken here.
    pub fn new(alloc: Global) -> Result<OutRing, NoMemory>
        ensures { IfOk result (λ r. r ≡ record { waiting = []; dropped = 0 }) }
    {
        let octets = HeapCircularBuffer::with_capacity(alloc, OUT_RING)?;
        Ok(OutRing { octets, dropped: 0 })
    }

    /// Appends octets, or counts that they don't fit.
    pub fn put(&mut self, octets: &[u8])
        ensures { self.new ≡ put_out octets.now self.old }
    {
        let free = self.octets.capacity() - self.octets.len();
        if octets.len() <= free {
            self.octets.fill_from_slice(octets);
        } else {
            self.dropped = self.dropped.saturating_add(1);
        }
    }

    /// Appends a frame, or counts that it doesn't fit.
    pub fn put_frame(&mut self, settings: &SendSettings, protocol: u16, information: &[u8])
        ensures { self.new ≡ put_out (encoding settings.now protocol information.now) self.old }
    {
        if !frame_into(settings, protocol, information, &mut self.octets) {
            self.dropped = self.dropped.saturating_add(1);
        }
    }

    /// Whether none wait.
    pub fn is_empty(&self) -> bool
        ensures { result ≡ is_none_waiting self.now.waiting }
    {
        self.octets.is_empty()
    }

    /// Takes the first octets, as many as a writing has at most, or all.
    pub fn take(&mut self) -> Octets<1024>
        ensures octets { result ≡ take MOST_WRITTEN self.old.waiting }
        ensures new { self.new ≡ record self.old { waiting = drop MOST_WRITTEN self.old.waiting } }
    {
        let mut buf = [0; 1024];
        let count = self.octets.read_into(&mut buf);
        let mut octets = Octets::new();
        octets.append(&buf[..count]);
        octets
    }

    /// None wait any more.
    pub fn clear(&mut self)
        ensures { self.new ≡ record self.old { waiting = [] } }
    {
        self.octets.clear();
    }
}

ghost use Rattle.std.specs.Prelude.{◌≡◌, [], IfOk};
ghost use Rattle.ppp_memory.specs.Iface.{after_give, out_answer_of, out_state_of};
ghost use Rattle.ppp_outside.specs.Iface.{GivesPacket};

use ppp_base::{Datagram, NoMemory, Unit};
use ppp_outside::{Gave, IfaceOut, UnitDatagram};
use std::alloc::Global;
use std::marker::Model;

/// The writing half of a packet socket in memory, which records what it is given. Some calls fail.
#[derive(Drop)]
pub struct MemoryIfaceOut {
    written: Vec<UnitDatagram>,
    room: usize,
    failing: Vec<u64>,
    tries: u64,
    faults: u64,
}

impl Model for MemoryIfaceOut {
    ghost use Rattle.std.specs.Prelude.{◌≤◌, vec_capacity, vec_len};
    ghost use Rattle.ppp_memory.specs.Iface.{IfaceOutInMemory};

    ghost Value = { IfaceOutInMemory };

    ghost view = { λ s. record { written = s.written.items; room = s.room; failing = s.failing.items; tries = s.tries; faults = s.faults } };

    ghost invariant = { λ s. (vec_len s.written ≤ s.room) × (s.room ≤ vec_capacity s.written) };
}

impl MemoryIfaceOut {
    /// A writing half whose record has room for so many packets, which is reserved here. A call at a full record
    /// fails, and so do the calls with the numbers in `failing`, where the first call is number 1.
    pub fn new(alloc: Global, room: usize, failing: Vec<u64>) -> Result<MemoryIfaceOut, NoMemory>
        ensures { IfOk result (λ s. s ≡ record { written = []; room = room; failing = failing.items; tries = 0; faults = 0 }) }
    {
        let written = Vec::with_capacity(alloc, room)?;
        Ok(MemoryIfaceOut {
            written,
            room,
            failing,
            tries: 0,
            faults: 0,
        })
    }

    /// What it was given, the oldest first.
    pub fn written(&self) -> &[UnitDatagram]
        ensures { result.now ≡ self.now.written }
    {
        self.written.as_slice()
    }

    // What the next call answers.
    fn answer(&self) -> Gave
        ensures { result ≡ out_answer_of self.now }
    {
        let call = self.tries.saturating_add(1);
        if self.failing.contains(&call) || self.written.len() >= self.room {
            Gave::Failed
        } else {
            Gave::Gave
        }
    }
}

impl IfaceOut for MemoryIfaceOut {
    ghost state = { out_state_of };

    fn give(&mut self, unit: Unit, datagram: &Datagram) -> Gave
        ensures gives { GivesPacket (out_state_of self.old) (out_state_of self.new) unit datagram.now result }
        ensures answer { result ≡ out_answer_of self.old }
        ensures after { self.new ≡ after_give self.old unit datagram.now result }
    {
        let answer = self.answer();
        self.tries = self.tries.saturating_add(1);
        if answer == Gave::Failed {
            self.faults = self.faults.saturating_add(1);
            return answer;
        }
        let kept = self.written.push(UnitDatagram {
            unit,
            datagram: datagram.copy(),
        });
        prove!(kept.is_ok());
        answer
    }
}

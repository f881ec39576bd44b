ghost use Rattle.std.specs.Prelude.{◌≡◌, ◌≤◌, ◌-◌, [], length, take, drop, min, nat_lt, false, IfOk};
ghost use Rattle.ppp_outside.specs.Line.{FitsBuffer, given};
ghost use Rattle.ppp_real.specs.ChildOutput.{answer_of, blocks_reads, most_waiting, with_octets};
ghost use Rattle.ppp_real.specs.declared.child_output.Flow.TheVariants.{Flows};

use circular_buffer::HeapCircularBuffer;
use ppp_outside::LineGot;
use std::alloc::{AllocError, Global};
use std::marker::Model;
use std::mem;

/// The most octets of a child's output that wait to be read.
const MOST_WAITING: usize = 65_536;

/// Whether more of a child's output may come.
#[derive(Clone, Copy, Debug, PartialEq, Eq)]
pub enum Flow {
    /// More may come.
    Flows,
    /// It is at its end.
    Ended,
    /// It can't be had any more.
    Failed,
}

/// What a child has written and nobody has read yet.
#[derive(Drop)]
pub struct ChildOutput {
    octets: HeapCircularBuffer<u8>,
    flow: Flow,
    is_wanted: bool,
}

impl Model for ChildOutput {
    ghost use Rattle.std.specs.Prelude.{◌≡◌};
    ghost use Rattle.ppp_real.specs.ChildOutput.{OutputNow, most_waiting};

    ghost Value = { OutputNow };

    ghost view = { λ s. record { octets = s.octets.items; flow = s.flow; is_wanted = s.is_wanted } };

    ghost invariant = { λ s. s.octets.capacity ≡ most_waiting };
}

impl ChildOutput {
    /// That of a child which has written nothing.
    pub fn new(alloc: Global) -> Result<ChildOutput, AllocError>
        ensures { IfOk result (λ output. output ≡ record { octets = []; flow = Flows; is_wanted = false }) }
    {
        Ok(ChildOutput {
            octets: HeapCircularBuffer::with_capacity(alloc, MOST_WAITING)?,
            flow: Flow::Flows,
            is_wanted: false,
        })
    }

    /// Adds octets from the piece's front, as many as there is room for, and answers how many. Where that is not all of
    /// them, room is wanted from then on.
    pub fn put(&mut self, piece: &[u8]) -> usize
        ensures count { result ≡ min (length piece.now) (most_waiting - length self.old.octets) }
        ensures after { self.new ≡ with_octets self.old (take result piece.now) (nat_lt result (length piece.now)) }
    {
        let count = self.octets.fill_from_slice(piece);
        self.is_wanted = count < piece.len();
        count
    }

    /// Takes octets from the front, as many as are there and as there is room for. Where none is there, it tells why.
    pub fn take(&mut self, buf: &mut [u8]) -> LineGot
        ensures answer { result ≡ answer_of self.old (length buf.old) }
        ensures gives { given result buf.new ≡ take (length buf.old) self.old.octets }
        ensures after { self.new ≡ record self.old { octets = drop (length buf.old) self.old.octets } }
        ensures fits { FitsBuffer result buf.new }
    {
        if self.octets.is_empty() {
            return match self.flow {
                Flow::Flows => LineGot::Quiet,
                Flow::Ended => LineGot::End,
                Flow::Failed => LineGot::Failed,
            };
        }
        match self.octets.read_into(buf) {
            0 => LineGot::Quiet,
            count => LineGot::Got(count),
        }
    }

    /// Whether a read has to wait: no octet is there, and more may come.
    pub fn blocks_reads(&self) -> bool
        ensures { result ≡ blocks_reads self.now }
    {
        self.octets.is_empty() && self.flow == Flow::Flows
    }

    /// Whether room is wanted, which is told once.
    pub fn take_wish(&mut self) -> bool
        ensures told { result ≡ self.old.is_wanted }
        ensures after { self.new ≡ record self.old { is_wanted = false } }
    {
        mem::replace(&mut self.is_wanted, false)
    }

    /// Nothing more will come, for this reason.
    pub fn end(&mut self, flow: Flow)
        ensures { self.new ≡ record self.old { flow = flow } }
    {
        self.flow = flow;
    }
}

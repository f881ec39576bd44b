ghost use Rattle.std.specs.Prelude.{◌≡◌, ◌<◌, ◌≤◌, [], ◌∷◌, ◌++◌, length, MatchOption, IfNone, IfOk};

use circular_buffer::HeapCircularBuffer;
use ppp_base::{CloseCause, Datagram, Frame, LinkId, NoMemory};
use std::alloc::Global;
use std::marker::Model;

/// What a link is to send to its peer.
#[derive(Debug, Drop)]
pub struct Sending {
    pub link: LinkId,
    pub protocol: u16,
    pub information: Frame,
    /// The link is to reject this protocol.
    pub rejected: bool,
}

/// How a step closed the bundle.
#[derive(Clone, Copy, Debug, PartialEq, Eq)]
pub struct BundleEnd {
    /// The number of the cause, 12 to 16.
    pub cause: u8,
    /// 1 where the peer has ended it by IPCP, else 0.
    pub y: u16,
    /// For the causes 12 and 13 the time that passed, in milliseconds.
    pub elapsed_ms: u32,
    /// IPCP was in Opened at some moment since the bundle was made.
    pub live: bool,
}

/// Why a bundle is closed, and for the causes 12 and 13 the time that passed.
#[derive(Clone, Copy)]
pub struct Ending {
    pub cause: CloseCause,
    pub elapsed_ms: u32,
}

/// What a unit dropped. Counts stand still at their end.
#[derive(Clone, Copy, Debug, PartialEq, Eq)]
pub struct UnitCounts {
    /// Datagrams in either direction while IPCP wasn't in Opened, and what was gathered of a bundle that was closed.
    pub not_open: u64,
    /// Frames of links that weren't members.
    pub stranger: u64,
    /// Datagrams above the peer's MRRU or MRU, and packets of pieces above ours.
    pub too_big: u64,
    /// Packets of pieces without a protocol field.
    pub bad_inner: u64,
}

/// How much may wait: 128 packets that were gathered lead to three packets of IPCP each at most, and each is sent in 17 pieces at
/// most.
pub const MOST_SENT: usize = 6528;

/// A step gives no more than it gathers.
pub const MOST_GIVEN: usize = 128;

/// What a step sends. Contracts see it as its list.
#[derive(Drop)]
pub struct SentList {
    list: HeapCircularBuffer<Sending>,
}

impl Model for SentList {
    ghost use Rattle.std.specs.Prelude.{List, ◌≡◌};
    ghost use Rattle.ppp_unit_parts.specs.declared.outbox.Sending.{Sending};
    ghost use Rattle.ppp_unit_parts.specs.declared.outbox.TheConstants.{MOST_SENT};

    ghost Value = { List Sending };

    ghost view = { λ s. s.list.items };

    ghost invariant = { λ s. s.list.capacity ≡ MOST_SENT };
}

impl SentList {
    /// Nothing waits. All memory that is ever needed is taken here.
    pub fn new(alloc: Global) -> Result<SentList, NoMemory>
        ensures { IfOk result (λ s. s ≡ []) }
    {
        match HeapCircularBuffer::with_capacity(alloc, MOST_SENT) {
            Ok(list) => Ok(SentList { list }),
            Err(_) => Err(NoMemory),
        }
    }

    /// One more is to be sent.
    pub fn push(&mut self, sending: Sending)
        requires { length self.old < MOST_SENT }
        ensures { self.new ≡ self.old ++ sending ∷ [] }
    {
        let _ = self.list.try_push_back(sending);
    }

    /// The first is taken.
    #[tactic(auto, using(crate::proofs::OutboxFacts::first_of))]
    pub fn take_first(&mut self) -> Option<Sending>
        ensures some { MatchOption result (self.old ≡ []) (λ first. self.old ≡ first ∷ self.new) }
        ensures none { IfNone result (self.new ≡ []) }
    {
        self.list.pop_front()
    }
}

/// What a step gives. Contracts see it as its list.
#[derive(Drop)]
pub struct GivenList {
    list: HeapCircularBuffer<Datagram>,
}

impl Model for GivenList {
    ghost use Rattle.std.specs.Prelude.{List, ℕ, ◌≡◌};
    ghost use Rattle.ppp_unit_parts.specs.declared.outbox.TheConstants.{MOST_GIVEN};

    ghost Value = { List (List ℕ) };

    ghost view = { λ s. s.list.items };

    ghost invariant = { λ s. s.list.capacity ≡ MOST_GIVEN };
}

impl GivenList {
    /// Nothing waits. All memory that is ever needed is taken here.
    pub fn new(alloc: Global) -> Result<GivenList, NoMemory>
        ensures { IfOk result (λ s. s ≡ []) }
    {
        match HeapCircularBuffer::with_capacity(alloc, MOST_GIVEN) {
            Ok(list) => Ok(GivenList { list }),
            Err(_) => Err(NoMemory),
        }
    }

    /// One more is given.
    pub fn push(&mut self, datagram: Datagram)
        requires { length self.old < MOST_GIVEN }
        ensures { self.new ≡ self.old ++ datagram ∷ [] }
    {
        let _ = self.list.try_push_back(datagram);
    }

    /// The first is taken.
    #[tactic(auto, using(crate::proofs::OutboxFacts::first_of))]
    pub fn take_first(&mut self) -> Option<Datagram>
        ensures some { MatchOption result (self.old ≡ []) (λ first. self.old ≡ first ∷ self.new) }
        ensures none { IfNone result (self.new ≡ []) }
    {
        self.list.pop_front()
    }
}

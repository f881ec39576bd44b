ghost use Rattle.std.specs.Prelude.{◌≡◌, ◌≤◌, [], IfOk, IfSome, length, max, refl, None, Some};
ghost use Rattle.std.specs.Io.KnownBytes.{Appends};
ghost use Rattle.std.proofs.Common.{ap};
ghost use Rattle.ppp_outside.specs.Counts.{CountsFault};
ghost use Rattle.ppp_outside.specs.MemorySink.{SinkInMemory, after_write, answer_of, state_of};
ghost use Rattle.ppp_outside.specs.Sink.{FitsPiece, accepted, failed};
ghost use Rattle.ppp_outside.specs.declared.sink.SinkNext.TheVariants.{Takes};

use crate::scripted::{Scripted, ScriptedSink};
use crate::sink::{Sink, SinkNext, Took};
use ppp_base::NoMemory;
use std::alloc::Global;
use std::marker::Model;

/// A record of octets in memory, taken in pieces. Some calls fail.
#[derive(Drop)]
pub struct MemorySink {
    written: Vec<u8>,
    room: usize,
    piece: usize,
    failing: Vec<u64>,
    next: SinkNext,
    calls: u64,
    faults: u64,
}

impl Model for MemorySink {
    ghost use Rattle.std.specs.Prelude.{◌<◌, ◌≤◌, vec_capacity, vec_len};
    ghost use Rattle.ppp_outside.specs.MemorySink.{SinkInMemory};

    ghost Value = { SinkInMemory };

    ghost view = { λ s. record { written = s.written.items; room = s.room; piece = s.piece; failing = s.failing.items; next = s.next; calls = s.calls; faults = s.faults } };

    ghost invariant = { λ s. (vec_len s.written ≤ s.room) × (s.room ≤ vec_capacity s.written) × (0 < s.piece) };
}

impl MemorySink {
    /// A sink with room for so many octets, which is reserved here, and which takes at most `piece` of them at a
    /// call, and one where `piece` is 0. A call at a full record fails, and so do the calls with the numbers in
    /// `failing`, where the first call is number 1.
    pub fn new(
        alloc: Global,
        room: usize,
        piece: usize,
        failing: Vec<u64>,
    ) -> Result<MemorySink, NoMemory>
        ensures { IfOk result (λ s. s ≡ record { written = []; room = room; piece = max piece 1; failing = failing.items; next = Takes; calls = 0; faults = 0 }) }
    {
        let written = Vec::with_capacity(alloc, room)?;
        Ok(MemorySink {
            written,
            room,
            piece: piece.max(1),
            failing,
            next: SinkNext::Takes,
            calls: 0,
            faults: 0,
        })
    }

    /// What was written.
    pub fn written(&self) -> &[u8]
        ensures { result.now ≡ self.now.written }
    {
        self.written.as_slice()
    }

    // What the next call answers to a piece of so many octets.
    fn answer(&self, octets: usize) -> Took
        ensures { result ≡ answer_of self.now octets }
    {
        let call = self.calls.saturating_add(1);
        let count = octets.min(self.room - self.written.len()).min(self.piece);
        if self.failing.contains(&call)
            || self.next == SinkNext::Fails
            || (count == 0 && octets > 0)
        {
            Took::Failed
        } else {
            Took::Took(count)
        }
    }
}

impl Sink for MemorySink {
    ghost state = { state_of };

    ghost coming = { λ s. None };

    fn write(&mut self, piece: &[u8]) -> Took
        ensures fits { FitsPiece result piece.now }
        ensures written { Appends (Some self.old.written) (Some self.new.written) (accepted result piece.now) }
        ensures faults { CountsFault (failed result) self.old.faults self.new.faults }

        // It fails exactly where the call is one of those that are to fail, a fault was set, or there is no room.
        ensures answer { result ≡ answer_of self.old (length piece.now) }
        ensures after { self.new ≡ after_write self.old piece.now result }
    {
        let answer = self.answer(piece.len());
        self.calls = self.calls.saturating_add(1);
        match answer {
            Took::Took(count) => {
                let kept = self.written.extend_from_slice(&piece[..count]);
                prove!(kept.is_ok());
            }
            Took::Failed => self.faults = self.faults.saturating_add(1),
        }
        answer
    }
}

impl Scripted for MemorySink {
    type Next = SinkNext;

    ghost SameButNext = { λ a b. b ≡ record a { next = b.next } };

    ghost next = { λ s. s.next };

    fn next_is(&mut self, answer: &SinkNext) {
        self.next = *answer;
    }
}

impl ScriptedSink for MemorySink {
    ghost keeps = { λ a b same. ap state_of same };

    ghost answers_it = { λ s. tt };
}

ghost use Rattle.std.specs.Prelude.{◌≡◌, ◌≤◌, ◌++◌, drop, length, max, take, Some};
ghost use Rattle.std.specs.Io.KnownBytes.{Consumes, IsAtEnd};
ghost use Rattle.ppp_outside.specs.Counts.{CountsFault, raised};
ghost use Rattle.ppp_outside.specs.MemorySource.{after_read, answer_of, state_of};
ghost use Rattle.ppp_outside.specs.Source.{FitsBuffer, failed, given};

use crate::source::{Got, Source};
use std::marker::Model;

/// Octets in memory, given in pieces. Some calls fail.
#[derive(Drop)]
pub struct MemorySource {
    octets: Vec<u8>,
    at: usize,
    piece: usize,
    failing: Vec<u64>,
    calls: u64,
    taken: u64,
    faults: u64,
}

impl Model for MemorySource {
    ghost use Rattle.std.specs.Prelude.{◌<◌, ◌≤◌, drop, vec_len};
    ghost use Rattle.ppp_outside.specs.MemorySource.{SourceInMemory};

    ghost Value = { SourceInMemory };

    ghost view = { λ s. record { left = drop s.at s.octets.items; piece = s.piece; failing = s.failing.items; calls = s.calls; taken = s.taken; faults = s.faults } };

    ghost invariant = { λ s. (s.at ≤ vec_len s.octets) × (0 < s.piece) };
}

impl MemorySource {
    /// A source of these octets, which gives at most `piece` of them at a call, and one where `piece` is 0. The
    /// calls with the numbers in `failing` fail, where the first call is number 1.
    pub fn new(octets: Vec<u8>, piece: usize, failing: Vec<u64>) -> MemorySource
        ensures { result ≡ record { left = octets.items; piece = max piece 1; failing = failing.items; calls = 0; taken = 0; faults = 0 } }
    {
        MemorySource {
            octets,
            at: 0,
            piece: piece.max(1),
            failing,
            calls: 0,
            taken: 0,
            faults: 0,
        }
    }

    // What the next call answers into a buffer with so much room.
    fn answer(&self, room: usize) -> Got
        ensures { result ≡ answer_of self.now room }
    {
        let call = self.calls.saturating_add(1);
        let left = self.octets.len() - self.at;
        if self.failing.contains(&call) {
            Got::Failed
        } else if left == 0 && room > 0 {
            Got::End
        } else {
            Got::Got(left.min(room).min(self.piece))
        }
    }

    // Puts so many octets at the front of the buffer.
    fn put(&self, buf: &mut [u8], count: usize)
        requires within { count ≤ length self.now.left }
        requires fits { count ≤ length buf.old }
        ensures copied { buf.new ≡ take count self.now.left ++ drop count buf.old }
        ensures in_left { count ≤ length self.now.left }
    {
        buf[..count].copy_from_slice(&self.octets[self.at..self.at + count]);
    }
}

impl Source for MemorySource {
    ghost state = { state_of };

    fn read(&mut self, buf: &mut [u8]) -> Got
        ensures fits { FitsBuffer result buf.new }
        ensures left { Consumes (Some self.old.left) (Some self.new.left) (given result buf.new) }
        ensures end { result ≡ Got.End → IsAtEnd (Some self.new.left) }
        ensures taken { self.new.taken ≡ raised self.old.taken (length (given result buf.new)) }
        ensures faults { CountsFault (failed result) self.old.faults self.new.faults }

        // It fails exactly where the call is one of those that are to fail.
        ensures answer { result ≡ answer_of self.old (length buf.old) }
        ensures after { self.new ≡ after_read self.old result }
    {
        let answer = self.answer(buf.len());
        self.calls = self.calls.saturating_add(1);
        match answer {
            Got::Got(count) => {
                self.put(buf, count);
                self.at += count;
                self.taken = self.taken.saturating_add(count as u64);
            }
            Got::End => {}
            Got::Failed => self.faults = self.faults.saturating_add(1),
        }
        answer
    }
}

ghost use Rattle.std.specs.Prelude.{◌≡◌, ◌+◌, ◌≤◌, ◌∷◌, length, slice_index, false};
ghost use Rattle.ppp_memory.specs.Clock.{after_reading, reading_of, state_of};
ghost use Rattle.ppp_outside.specs.Clock.{Reads};

use ppp_outside::Clock;
use std::marker::Model;

/// A clock in memory, which gives the readings of a list.
#[derive(Drop)]
pub struct MemoryClock {
    first: u64,
    later: Vec<u64>,
    at: usize,
    past: bool,
    latest: u64,
}

impl Model for MemoryClock {
    ghost use Rattle.std.specs.Prelude.{◌+◌, ◌≤◌, vec_len};
    ghost use Rattle.ppp_memory.specs.Clock.{ClockInMemory};

    ghost Value = { ClockInMemory };

    ghost view = { λ s. record { first = s.first; later = s.later.items; at = s.at; past = s.past; latest = s.latest } };

    ghost invariant = { λ s. s.at ≤ vec_len s.later + 1 };
}

impl MemoryClock {
    /// A clock that gives these readings in milliseconds, and past the last one that again.
    pub fn new(first: u64, later: Vec<u64>) -> MemoryClock
        ensures { result ≡ record { first = first; later = later.items; at = 0; past = false; latest = 0 } }
    {
        MemoryClock {
            first,
            later,
            at: 0,
            past: false,
            latest: 0,
        }
    }

    // The reading at this place, from 0 on.
    fn reading(&self, place: usize) -> u64
        requires { place ≤ length self.now.later }
        ensures { result ≡ slice_index (self.now.first ∷ self.now.later) place }
    {
        if place == 0 {
            self.first
        } else {
            self.later[place - 1]
        }
    }

    // The next reading.
    fn step(&mut self) -> u64
        ensures within { self.old.at ≤ length self.old.later + 1 }
        ensures reading { result ≡ reading_of self.old }
        ensures after { self.new ≡ after_reading self.old }
    {
        let last = self.later.len();
        let reading = self.reading(self.at.min(last));
        if self.at <= last {
            self.at += 1;
        } else {
            self.past = true;
        }
        self.latest = self.latest.max(reading);
        reading
    }
}

impl Clock for MemoryClock {
    ghost state = { state_of };

    fn now_ms(&mut self) -> u64
        ensures reads { Reads (state_of self.old) (state_of self.new) result }
        ensures reading { result ≡ reading_of self.old }
        ensures after { self.new ≡ after_reading self.old }
    {
        self.step()
    }

    fn rest(&mut self, _ms: u32)
        ensures same { self.new ≡ self.old }
    {}
}

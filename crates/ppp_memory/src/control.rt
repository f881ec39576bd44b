ghost use Rattle.std.specs.Prelude.{◌≡◌, drop, if◌then◌else◌};
ghost use Rattle.ppp_memory.specs.Control.{after_next, answer_of, counted_after, heard_as, state_of};
ghost use Rattle.ppp_outside.specs.Control.{HearsWord, failed};

use ppp_base::Name;
use ppp_outside::{Control, Word, signal_named};
use std::marker::Model;

/// A control in memory, which hears the words of a list. Some calls fail.
#[derive(Drop)]
pub struct MemoryControl {
    words: Vec<Name>,
    at: usize,
    failing: Vec<u64>,
    calls: u64,
    signals: u64,
    ends: u64,
    faults: u64,
}

impl Model for MemoryControl {
    ghost use Rattle.std.specs.Prelude.{◌≤◌, drop, vec_len};
    ghost use Rattle.ppp_memory.specs.Control.{ControlInMemory};

    ghost Value = { ControlInMemory };

    ghost view = { λ s. record { words = drop s.at s.words.items; failing = s.failing.items; calls = s.calls; signals = s.signals; ends = s.ends; faults = s.faults } };

    ghost invariant = { λ s. s.at ≤ vec_len s.words };
}

impl MemoryControl {
    /// A control that hears these words, of which `HUP`, `INT`, `TERM`, `USR1` and `USR2` are signals, and then is at
    /// its end. The calls with the numbers in `failing` fail, where the first call is number 1.
    pub fn new(words: Vec<Name>, failing: Vec<u64>) -> MemoryControl
        ensures { result ≡ record { words = words.items; failing = failing.items; calls = 0; signals = 0; ends = 0; faults = 0 } }
    {
        MemoryControl {
            words,
            at: 0,
            failing,
            calls: 0,
            signals: 0,
            ends: 0,
            faults: 0,
        }
    }

    // What the next word is heard as.
    fn heard(&self) -> Word
        ensures { result ≡ heard_as self.now.words }
    {
        match self.words.get(self.at) {
            None => Word::End,
            Some(text) => match signal_named(text.as_slice()) {
                Some(signal) => Word::Signal(signal),
                None => Word::Quiet,
            },
        }
    }

    // What the next call answers.
    fn answer(&self) -> Word
        ensures { result ≡ answer_of self.now }
    {
        let call = self.calls.saturating_add(1);
        if self.failing.contains(&call) {
            Word::Failed
        } else {
            self.heard()
        }
    }

    // Goes on behind the next word.
    #[tactic(auto, using(crate::proofs::PlaceLemmas::one_on, crate::proofs::PlaceLemmas::stays_at_end))]
    fn go_on(&mut self)
        ensures { self.new ≡ record self.old { words = drop 1 self.old.words } }
    {
        if self.at < self.words.len() {
            self.at += 1;
        }
    }

    // Goes on behind the next word, unless the call failed.
    fn pass(&mut self, answer: Word)
        ensures { self.new ≡ record self.old { words = if failed answer then self.old.words else drop 1 self.old.words } }
    {
        match answer {
            Word::Signal(_) => self.go_on(),
            Word::Quiet => self.go_on(),
            Word::End => self.go_on(),
            Word::Failed => {}
        }
    }

    // Counts an answer.
    fn count(&mut self, answer: Word)
        ensures { self.new ≡ counted_after self.old answer }
    {
        self.calls = self.calls.saturating_add(1);
        match answer {
            Word::Signal(_) => self.signals = self.signals.saturating_add(1),
            Word::Quiet => {}
            Word::End => self.ends = self.ends.saturating_add(1),
            Word::Failed => self.faults = self.faults.saturating_add(1),
        }
    }

    // The next word.
    fn step(&mut self) -> Word
        ensures answer { result ≡ answer_of self.old }
        ensures after { self.new ≡ after_next self.old result }
    {
        let answer = self.answer();
        self.count(answer);
        self.pass(answer);
        answer
    }
}

impl Control for MemoryControl {
    ghost state = { state_of };

    fn next(&mut self, _wait_ms: u32) -> Word
        ensures hears { HearsWord (state_of self.old) (state_of self.new) result }
        ensures answer { result ≡ answer_of self.old }
        ensures after { self.new ≡ after_next self.old result }
    {
        self.step()
    }
}

ghost use Rattle.std.specs.Prelude.{◌≡◌, ◌≤◌, [], Some, None, IfOk, refl, if◌then◌else◌};
ghost use Rattle.std.proofs.Common.{ap};
ghost use Rattle.ppp_outside.specs.Counts.{raised, CountsFault};
ghost use Rattle.ppp_outside.specs.MemorySpawner.{Recorded, answer_of, after_run, is_refused};
ghost use Rattle.ppp_outside.specs.Spawner.{failed, RunsAfter};
ghost use Rattle.ppp_outside.specs.declared.spawner.ScriptEnd.TheVariants.{Exit};

use crate::hook_words::HookWords;
use crate::scripted::{Scripted, ScriptedSpawner};
use crate::spawner::{Ran, ScriptEnd, Spawner};
use ppp_base::NoMemory;
use std::alloc::Global;
use std::marker::Model;

/// A spawner in memory, which starts nothing and records each call that it answers by an end. Some calls fail.
#[derive(Drop)]
pub struct MemorySpawner {
    ran: Vec<Ran>,
    room: usize,
    failing: Vec<u64>,
    next: ScriptEnd,
    tries: u64,
    faults: u64,
}

impl Model for MemorySpawner {
    ghost use Rattle.std.specs.Prelude.{◌≤◌, vec_len, vec_capacity};
    ghost use Rattle.ppp_outside.specs.MemorySpawner.{Recorded};

    ghost Value = { Recorded };

    ghost view = { λ s. record { runs = s.ran.items; room = s.room; failing = s.failing.items; next = s.next; tries = s.tries; faults = s.faults } };

    ghost invariant = { λ s. (vec_len s.ran ≤ s.room) × (s.room ≤ vec_capacity s.ran) };
}

impl MemorySpawner {
    /// A spawner whose record has room for so many runs, which is reserved here. It answers `Exit(0)` until
    /// another answer is set. A call at a full record fails, and so do the calls with the numbers in `failing`,
    /// where the first call is number 1.
    pub fn new(alloc: Global, room: usize, failing: Vec<u64>) -> Result<MemorySpawner, NoMemory>
        ensures { IfOk result (λ s. s ≡ record { runs = []; room = room; failing = failing.items; next = Exit 0; tries = 0; faults = 0 }) }
    {
        let ran = Vec::with_capacity(alloc, room)?;
        Ok(MemorySpawner {
            ran,
            room,
            failing,
            next: ScriptEnd::Exit(0),
            tries: 0,
            faults: 0,
        })
    }

    /// The runs, the oldest first.
    pub fn ran(&self) -> &[Ran]
        ensures { result.now ≡ self.now.runs }
    {
        self.ran.as_slice()
    }

    // What the next call answers.
    fn answer(&self) -> ScriptEnd
        ensures { result ≡ answer_of self.now }
    {
        let call = self.tries.saturating_add(1);
        if self.failing.contains(&call) || self.ran.len() >= self.room {
            ScriptEnd::NotStarted
        } else {
            self.next
        }
    }
}

impl Spawner for MemorySpawner {
    ghost faults = { λ s. s.faults };

    ghost tries = { λ s. s.tries };

    ghost runs = { λ s. Some s.runs };

    ghost answers = { λ s. if is_refused s then None else Some s.next };

    fn run(&mut self, words: &HookWords) -> ScriptEnd
        ensures tries { self.new.tries ≡ raised self.old.tries 1 }
        ensures faults { CountsFault (failed result) self.old.faults self.new.faults }
        ensures runs { RunsAfter (Some self.old.runs) (Some self.new.runs) words.now result }

        // It fails exactly where the call is one of those that are to fail or the record is full.
        ensures answer { result ≡ answer_of self.old }
        ensures after { self.new ≡ after_run self.old words.now }
    {
        let answer = self.answer();
        self.tries = self.tries.saturating_add(1);
        if answer == ScriptEnd::NotStarted {
            self.faults = self.faults.saturating_add(1);
            return answer;
        }
        let kept = self.ran.push(Ran {
            words: words.copy(),
            answer,
        });
        prove!(kept.is_ok());
        answer
    }
}

impl Scripted for MemorySpawner {
    type Next = ScriptEnd;

    ghost SameButNext = { λ a b. b ≡ record a { next = b.next } };

    ghost next = { λ s. s.next };

    fn next_is(&mut self, answer: &ScriptEnd) {
        self.next = *answer;
    }
}

impl ScriptedSpawner for MemorySpawner {
    ghost use Rattle.std.specs.Prelude.{true, false, IfSome};

    ghost keeps_tries = { λ a b same. ap (λ (s : Recorded). s.tries) same };

    ghost keeps_faults = { λ a b same. ap (λ (s : Recorded). s.faults) same };

    ghost keeps_runs = { λ a b same. ap (λ (s : Recorded). Some s.runs) same };

    ghost answers_it = { λ s. elim (is_refused s) as (λ refused. IfSome (if refused then None else Some s.next) (λ answer. answer ≡ s.next)) [ true ↦ tt | false ↦ refl ] };
}

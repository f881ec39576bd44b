ghost use Rattle.std.specs.Prelude.{◌≡◌, Some, None, refl};
ghost use Rattle.std.proofs.Common.{ap};
ghost use Rattle.ppp_outside.specs.declared.spawner.ScriptEnd.TheVariants.{Exit};

use crate::hook_words::HookWords;
use crate::scripted::{Scripted, ScriptedSpawner};
use crate::spawner::{ScriptEnd, Spawner};

/// A spawner in memory that keeps no record. Each call has the answer that was set.
#[derive(Clone, Copy, Debug, PartialEq, Eq)]
pub struct ReplaySpawner {
    next: ScriptEnd,
    tries: u64,
    faults: u64,
}

impl ReplaySpawner {
    /// It answers `Exit(0)` until another answer is set.
    pub fn new() -> ReplaySpawner
        ensures { result ≡ record { next = Exit 0; tries = 0; faults = 0 } }
    {
        ReplaySpawner {
            next: ScriptEnd::Exit(0),
            tries: 0,
            faults: 0,
        }
    }
}

impl Spawner for ReplaySpawner {
    ghost faults = { λ s. s.faults };

    ghost tries = { λ s. s.tries };

    ghost runs = { λ s. None };

    ghost answers = { λ s. Some s.next };

    fn run(&mut self, _words: &HookWords) -> ScriptEnd {
        self.tries = self.tries.saturating_add(1);
        if self.next == ScriptEnd::NotStarted {
            self.faults = self.faults.saturating_add(1);
        }
        self.next
    }
}

impl Scripted for ReplaySpawner {
    type Next = ScriptEnd;

    ghost SameButNext = { λ a b. b ≡ record a { next = b.next } };

    ghost next = { λ s. s.next };

    fn next_is(&mut self, answer: &ScriptEnd) {
        self.next = *answer;
    }
}

impl ScriptedSpawner for ReplaySpawner {
    ghost use Rattle.ppp_outside.specs.declared.replay_spawner.ReplaySpawner.{ReplaySpawner};

    ghost keeps_tries = { λ a b same. ap (λ (s : ReplaySpawner). s.tries) same };

    ghost keeps_faults = { λ a b same. ap (λ (s : ReplaySpawner). s.faults) same };

    ghost keeps_runs = { λ a b same. refl };

    ghost answers_it = { λ s. refl };
}

ghost use Rattle.std.specs.Prelude.{◌≡◌, ℕ, List, Option, IfSome};
ghost use Rattle.ppp_outside.specs.Counts.{raised, CountsFault};
ghost use Rattle.ppp_outside.specs.Spawner.{failed, RunsAfter};

use crate::hook_words::HookWords;

/// How a script ended.
#[derive(Clone, Copy, Debug, PartialEq, Eq)]
pub enum ScriptEnd {
    /// It ended by itself, with this exit status.
    Exit(u8),
    /// A signal ended it.
    Killed,
    /// It could not be started. This counts as an end.
    NotStarted,
}

/// A script that was run, and how it ended.
#[derive(Debug, Drop)]
pub struct Ran {
    pub words: HookWords,
    pub answer: ScriptEnd,
}

/// Runs site scripts, each to its end.
pub trait Spawner: Drop {
    ghost use Rattle.ppp_outside.specs.declared.spawner.Ran.{Ran};
    ghost use Rattle.ppp_outside.specs.declared.spawner.ScriptEnd.{ScriptEnd};

    /// How many scripts it could not start, or more.
    ghost faults: { Self → ℕ };

    /// How many calls there were.
    ghost tries: { Self → ℕ };

    /// The scripts that were run, the oldest first, where this is known.
    ghost runs: { Self → Option (List Ran) };

    /// The answer of the next call, where this is known.
    ghost answers: { Self → Option ScriptEnd };

    /// Runs the script with these words and waits for its end.
    fn run(&mut self, words: &HookWords) -> ScriptEnd
        ensures tries { tries self.new ≡ raised (tries self.old) 1 }
        ensures faults { CountsFault (failed result) (faults self.old) (faults self.new) }
        ensures runs { RunsAfter (runs self.old) (runs self.new) words.now result }
        ensures as_told { IfSome (answers self.old) (λ answer. result ≡ answer) };
}

ghost use Rattle.std.specs.Prelude.{◌≡◌, ℕ, ◌+◌, ◌<◌, ◌≤◌, List, ◌++◌, IfSome};
ghost use Rattle.ppp_outside.specs.Counts.{CountsFault};
ghost use Rattle.ppp_outside.specs.Spawner.{failed, ran_by};
ghost use Rattle.ppp_hooks.specs.HookCounts.{JobCounts, DoneCounts};
ghost use Rattle.ppp_hooks.specs.HookRuns.{IsFaithful, Tells};

use ppp_base::HookTarget;
use ppp_outside::{HookWords, Ran, ScriptEnd, ScriptedSpawner, Spawner};
use std::marker::Model;

/// A script that was started, and the spawner that is to run it. A machine alone makes one.
#[derive(Drop)]
pub struct HookJob<S: Spawner> {
    pub(crate) target: HookTarget,
    pub(crate) number: u32,
    pub(crate) not_started: u32,
    pub(crate) words: HookWords,
    pub(crate) spawner: S,
}

impl<S: Spawner> Model for HookJob<S> {
    ghost use Rattle.std.specs.Prelude.{◌-◌, ◌<◌};
    ghost use Rattle.ppp_hooks.specs.HookState.{JobState, WasHandedIn};

    ghost Value = { JobState S };

    ghost view = { λ j. record { target = j.target; number = j.number; not_started = j.not_started; words = j.words; spawner = j.spawner } };

    ghost invariant = { λ j. (0 < j.number) × WasHandedIn (S.tries j.spawner) (S.faults j.spawner) (j.number - 1) j.not_started };
}

/// A script that has ended, and the spawner that ran it. `HookJob::run` alone makes one.
#[derive(Drop)]
pub struct HookDone<S: Spawner> {
    pub(crate) target: HookTarget,
    pub(crate) number: u32,
    pub(crate) not_started: u32,
    pub(crate) answer: ScriptEnd,
    pub(crate) spawner: S,
}

impl<S: Spawner> Model for HookDone<S> {
    ghost use Rattle.std.specs.Prelude.{◌+◌};
    ghost use Rattle.ppp_hooks.specs.HookPast.{not_started_by};
    ghost use Rattle.ppp_hooks.specs.HookState.{DoneState, WasHandedIn};

    ghost Value = { DoneState S };

    ghost view = { λ d. record { target = d.target; number = d.number; not_started = d.not_started; answer = d.answer; spawner = d.spawner } };

    ghost invariant = { λ d. WasHandedIn (S.tries d.spawner) (S.faults d.spawner) d.number (d.not_started + not_started_by d.answer) };
}

impl<S: Spawner> HookJob<S> {
    /// Runs the script and waits for its end.
    pub fn run(self) -> HookDone<S>
        ensures same_job { (result.target ≡ self.target) × (result.number ≡ self.number) × (result.not_started ≡ self.not_started) }

        // One call of the spawner, with the job's words, and its answer.
        ensures tries { S.tries result.spawner ≡ S.tries self.spawner + 1 }
        ensures faults { CountsFault (failed result.answer) (S.faults self.spawner) (S.faults result.spawner) }
        ensures faithful { IsFaithful S.runs self result }
        ensures as_told { IfSome (S.answers self.spawner) (λ answer. result.answer ≡ answer) }

        // The counts and the record go on from those with which the spawner was handed in.
        ensures counts { (t f : ℕ) → JobCounts S.tries S.faults t f self → DoneCounts S.tries S.faults t f result }
        ensures told { (before ran : List Ran) → Tells (S.runs self.spawner) before ran
            → Tells (S.runs result.spawner) before (ran ++ ran_by self.words result.answer) }
    {
        let HookJob {
            target,
            number,
            not_started,
            words,
            mut spawner,
        } = self;
        let answer = spawner.run(&words);
        HookDone {
            target,
            number,
            not_started,
            answer,
            spawner,
        }
    }

    /// The number of the job, from 1 on.
    pub fn number(&self) -> u32
        ensures value { result ≡ self.now.number }
        ensures counted { 0 < result }
    {
        self.number
    }
}

impl<S: ScriptedSpawner> HookJob<S> {
    /// Sets what the spawner answers next. Its counts and its record stay.
    pub fn next_is(&mut self, answer: &S::Next)
        ensures job { self.new ≡ record self.old { spawner = self.new.spawner } }
        ensures same { S.SameButNext self.old.spawner self.new.spawner }
        ensures next { S.next self.new.spawner ≡ answer.now }
        ensures tries { S.tries self.new.spawner ≡ S.tries self.old.spawner }
        ensures faults { S.faults self.new.spawner ≡ S.faults self.old.spawner }
        ensures runs { S.runs self.new.spawner ≡ S.runs self.old.spawner }
        ensures told { IfSome (S.answers self.new.spawner) (λ told. told ≡ answer.now) }
    {
        self.spawner.next_is(answer);
    }
}

impl<S: Spawner> HookDone<S> {
    /// The number of its job, from 1 on.
    pub fn number(&self) -> u32
        ensures { result ≡ self.now.number }
    {
        self.number
    }

    /// How the script ended.
    pub fn answer(&self) -> ScriptEnd
        ensures { result ≡ self.now.answer }
    {
        self.answer
    }
}

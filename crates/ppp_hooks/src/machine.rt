ghost use Rattle.std.specs.Prelude.{◌≡◌, ℕ, ◌+◌, ◌-◌, ◌^◌, ◌<◌, ◌≤◌, ◌↔◌, Bool, not, ◌&&◌, [], ◌∷◌, List, IsSome, IsNone, is_some, IfSome, IfNone, OnSome, IsOk, OnOk, IfErr, OnErr, option_map, if◌then◌else◌, nat_lt};
ghost use Rattle.ppp_hooks.specs.HookCall.{HookCall, Opens, Closes, TakesJob, Ends, StandsForCalls, marks_of, is_running, is_taken};
ghost use Rattle.ppp_hooks.specs.HookCounts.{MachineCounts, JobCounts, DoneCounts};
ghost use Rattle.ppp_hooks.specs.HookFacts.{StandsFor, HasArgs, settled, started, with_open, with_closed, with_end, start_key, opening_number, no_facts};
ghost use Rattle.ppp_hooks.specs.HookMark.{HookMark, Opened, Closed, Ended};
ghost use Rattle.ppp_hooks.specs.HookPast.{starts_in, ends_in, open_in, greatest_in, last_in, running_in};
ghost use Rattle.ppp_hooks.specs.HookRule.{due_after, with_due};
ghost use Rattle.ppp_hooks.specs.HookRuns.{MachineTells, GivenLast, IsFaithful};
ghost use Rattle.ppp_hooks.specs.HookState.{JobState};
ghost use Rattle.ppp_hooks.specs.HookWords.{words_of_start, words_in};

use crate::facts::{HookFacts, HookStart};
use crate::job::{HookDone, HookJob};
use ppp_base::HookTarget;
use ppp_outside::{HookArgs, Ran, Spawner};
use std::marker::Model;

/// Starts a script as a protocol opens and as it closes, one at a time.
#[derive(Drop)]
pub struct HookMachine<S: Spawner> {
    target: HookTarget,
    facts: HookFacts,
    spawner: Option<S>,
}

impl<S: Spawner> Model for HookMachine<S> {
    ghost use Rattle.std.specs.Prelude.{is_some, IfSome};
    ghost use Rattle.ppp_hooks.specs.HookState.{HookState, IsSane, WasHandedIn};

    ghost Value = { HookState S };

    ghost view = { λ m. record { target = m.target; facts = m.facts; spawner = m.spawner } };

    ghost invariant = { λ m. IsSane m.facts (is_some m.spawner)
        × IfSome m.spawner (λ s. WasHandedIn (S.tries s) (S.faults s) m.facts.ends m.facts.not_started) };
}

impl<S: Spawner> HookMachine<S> {
    /// A machine of a protocol that is closed, with no start so far.
    pub fn new(target: HookTarget, spawner: S) -> HookMachine<S>
        requires tries { S.tries spawner < 2 ^ 63 }
        requires faults { S.faults spawner < 2 ^ 63 }
        ensures value { result ≡ record { target = target; facts = no_facts; spawner = Some spawner } }
        ensures stands { StandsFor result.facts [] }
        ensures calls { (given : ℕ → HookArgs) → StandsForCalls given result [] }
        ensures counts { MachineCounts S.tries S.faults (S.tries spawner) (S.faults spawner) result }
        ensures told { (given : ℕ → HookArgs) → IfSome (S.runs spawner) (λ before. MachineTells S.runs before given [] result) }
    {
        HookMachine {
            target,
            facts: HookFacts::new(),
            spawner: Some(spawner),
        }
    }

    /// The protocol has opened, under this number. Its scripts are told these arguments.
    pub fn opened(&mut self, n: u32, args: HookArgs)
        requires closed { self.old.facts.now_open ≡ None }
        requires above { self.old.facts.greatest < n }
        requires room { self.old.facts.starts < 2 ^ 32 - 1 }
        ensures now { self.new ≡ record self.old { facts = settled (with_open self.old.facts n args) } }

        // It stands for its past with this opening, and with the start that is due then.
        ensures stands { (past : List HookMark) → StandsFor self.old.facts past → StandsFor self.new.facts (with_due (Opened n ∷ past)) }
        ensures due { (past : List HookMark) → StandsFor self.old.facts past → due_after (Opened n ∷ past) ≡ started self.old.facts self.new.facts }
        ensures args { (given : ℕ → HookArgs) → HasArgs given self.old.facts → given n ≡ args → HasArgs given self.new.facts }
        ensures calls { (given : ℕ → HookArgs) (calls : List HookCall) → StandsForCalls given self.old calls → given n ≡ args
            → StandsForCalls given self.new (Opens n ∷ calls) }

        ensures counts { (t f : ℕ) → MachineCounts S.tries S.faults t f self.old → MachineCounts S.tries S.faults t f self.new }
        ensures told { (before : List Ran) (given : ℕ → HookArgs) (past : List HookMark) → MachineTells S.runs before given past self.old
            → MachineTells S.runs before given (with_due (Opened n ∷ past)) self.new }
        ensures out { (before : List Ran) (given : ℕ → HookArgs) (past : List HookMark) (job : JobState S) → StandsFor self.old.facts past
            → self.old.spawner ≡ None → GivenLast S.runs before given past job → GivenLast S.runs before given (with_due (Opened n ∷ past)) job }
    {
        self.facts.opened(n, args);
    }

    /// The protocol has closed.
    pub fn closed(&mut self)
        requires opened { IsSome self.old.facts.now_open }
        requires room { self.old.facts.starts < 2 ^ 32 - 1 }
        ensures now { self.new ≡ record self.old { facts = settled (with_closed self.old.facts) } }
        ensures stands { (past : List HookMark) (n : ℕ) → StandsFor self.old.facts past → opening_number self.old.facts.now_open ≡ Some n
            → StandsFor self.new.facts (with_due (Closed n ∷ past)) }
        ensures due { (past : List HookMark) (n : ℕ) → StandsFor self.old.facts past → due_after (Closed n ∷ past) ≡ started self.old.facts self.new.facts }
        ensures args { (given : ℕ → HookArgs) → HasArgs given self.old.facts → HasArgs given self.new.facts }
        ensures calls { (given : ℕ → HookArgs) (calls : List HookCall) → StandsForCalls given self.old calls → StandsForCalls given self.new (Closes ∷ calls) }
        ensures counts { (t f : ℕ) → MachineCounts S.tries S.faults t f self.old → MachineCounts S.tries S.faults t f self.new }
        ensures told { (before : List Ran) (given : ℕ → HookArgs) (past : List HookMark) (n : ℕ) → MachineTells S.runs before given past self.old
            → MachineTells S.runs before given (with_due (Closed n ∷ past)) self.new }
        ensures out { (before : List Ran) (given : ℕ → HookArgs) (past : List HookMark) (n : ℕ) (job : JobState S) → StandsFor self.old.facts past
            → self.old.spawner ≡ None → GivenLast S.runs before given past job → GivenLast S.runs before given (with_due (Closed n ∷ past)) job }
    {
        self.facts.closed();
    }

    /// The script that was started, if its job hasn't been taken. The spawner goes with it.
    pub fn take_job(&mut self) -> Option<HookJob<S>>
        ensures some { IsSome result ↔ (IsSome self.old.spawner × (self.old.facts.ends < self.old.facts.starts)) }
        ensures job { IfSome result (λ job. (job.target ≡ self.old.target) × (job.number ≡ self.old.facts.starts) × (job.not_started ≡ self.old.facts.not_started)) }
        ensures words { IfSome result (λ job. words_of_start self.old.target self.old.facts.last ≡ Some job.words) }
        ensures spawner { IfSome result (λ job. self.old.spawner ≡ Some job.spawner) }
        ensures taken { OnSome result (self.new ≡ record self.old { spawner = None }) }
        ensures none { IfNone result (self.new ≡ self.old) }

        // Of a list of calls: it is Some where a script runs whose job was not taken, and its words are those of the last start.
        ensures calls { (given : ℕ → HookArgs) (calls : List HookCall) → StandsForCalls given self.old calls → StandsForCalls given self.new (TakesJob ∷ calls) }
        ensures waits { (given : ℕ → HookArgs) (calls : List HookCall) → StandsForCalls given self.old calls → is_some result ≡ (is_running calls && not (is_taken calls)) }
        ensures last { (given : ℕ → HookArgs) (past : List HookMark) → StandsFor self.old.facts past → HasArgs given self.old.facts
            → IfSome result (λ job. words_in self.old.target given past ≡ Some job.words) }

        ensures counts { (t f : ℕ) → MachineCounts S.tries S.faults t f self.old → IfSome result (JobCounts S.tries S.faults t f) }
        ensures told { (before : List Ran) (given : ℕ → HookArgs) (past : List HookMark) → StandsFor self.old.facts past → HasArgs given self.old.facts
            → MachineTells S.runs before given past self.old → IfSome result (GivenLast S.runs before given past) }
    {
        if self.facts.running().is_none() {
            return None;
        }
        let words = self.facts.words(self.target)?;
        let spawner = self.spawner.take()?;
        Some(HookJob {
            target: self.target,
            number: self.facts.starts,
            not_started: self.facts.not_started,
            words,
            spawner,
        })
    }

    /// A script has ended. An `Err` gives back what isn't the job that was taken and runs, and changes nothing.
    pub fn ended(&mut self, done: HookDone<S>) -> Result<(), HookDone<S>>
        requires room { self.old.facts.starts < 2 ^ 32 - 1 }
        ensures ok { IsOk result ↔ (IsNone self.old.spawner × (done.target ≡ self.old.target) × (done.number ≡ self.old.facts.starts) × (done.not_started ≡ self.old.facts.not_started)) }
        ensures now { OnOk result (self.new ≡ record self.old { facts = settled (with_end self.old.facts done.answer); spawner = Some done.spawner }) }
        ensures stands { OnOk result ((past : List HookMark) → StandsFor self.old.facts past → StandsFor self.new.facts (with_due (Ended done.answer done.number ∷ past))) }
        ensures due { OnOk result ((past : List HookMark) → StandsFor self.old.facts past
            → due_after (Ended done.answer done.number ∷ past) ≡ started self.old.facts self.new.facts) }
        ensures args { OnOk result ((given : ℕ → HookArgs) → HasArgs given self.old.facts → HasArgs given self.new.facts) }
        ensures calls { OnOk result ((given : ℕ → HookArgs) (calls : List HookCall) → StandsForCalls given self.old calls
            → StandsForCalls given self.new (Ends done.answer ∷ calls)) }
        ensures counts { (t f : ℕ) → DoneCounts S.tries S.faults t f done → OnOk result (MachineCounts S.tries S.faults t f self.new) }

        // Where what came back is faithful to the job that was given last, the record goes on by just this end.
        ensures told { (before : List Ran) (given : ℕ → HookArgs) (past : List HookMark) (job : JobState S) → StandsFor self.old.facts past
            → job.target ≡ self.old.target → GivenLast S.runs before given past job → IsFaithful S.runs job done
            → OnOk result (MachineTells S.runs before given (with_due (Ended done.answer done.number ∷ past)) self.new) }

        // As many had ended as were started, but for this one.
        ensures counted { OnOk result (self.old.facts.starts ≡ self.old.facts.ends + 1) }
        ensures unchanged { OnErr result (self.new ≡ self.old) }
        ensures given_back { IfErr result (λ back. back ≡ done) }
    {
        if self.spawner.is_some()
            || done.target != self.target
            || done.number != self.facts.starts
            || done.not_started != self.facts.not_started
        {
            return Err(done);
        }
        self.facts.ended(done.answer);
        self.spawner = Some(done.spawner);
        Ok(())
    }

    /// Whose scripts they are.
    pub fn target(&self) -> HookTarget
        ensures { result ≡ self.now.target }
    {
        self.target
    }

    /// The last start.
    pub fn last(&self) -> Option<HookStart>
        ensures value { option_map (λ (s : HookStart). (s.up, s.opening)) result ≡ option_map start_key self.now.facts.last }
        ensures of_past { (past : List HookMark) → StandsFor self.now.facts past → option_map (λ (s : HookStart). (s.up, s.opening)) result ≡ last_in past }
    {
        self.facts.last_start()
    }

    /// The number of the opening that is open.
    pub fn now_open(&self) -> Option<u32>
        ensures value { result ≡ opening_number self.now.facts.now_open }
        ensures of_past { (past : List HookMark) → StandsFor self.now.facts past → result ≡ open_in past }
    {
        self.facts.open_number()
    }

    /// The greatest number of an opening so far, 0 where there was none.
    pub fn greatest(&self) -> u32
        ensures value { result ≡ self.now.facts.greatest }
        ensures of_past { (past : List HookMark) → StandsFor self.now.facts past → result ≡ greatest_in past }
    {
        self.facts.greatest()
    }

    /// The number of the job that runs, from its start to its end.
    pub fn running(&self) -> Option<u32>
        ensures value { result ≡ (if nat_lt self.now.facts.ends self.now.facts.starts then Some self.now.facts.starts else None) }
        ensures of_past { (past : List HookMark) → StandsFor self.now.facts past
            → result ≡ running_in past }
    {
        self.facts.running()
    }

    /// How many scripts were started.
    pub fn starts(&self) -> u32
        ensures value { result ≡ self.now.facts.starts }
        ensures of_past { (past : List HookMark) → StandsFor self.now.facts past → result ≡ starts_in past }
    {
        self.facts.starts()
    }

    /// How many scripts have ended.
    pub fn ends(&self) -> u32
        ensures value { result ≡ self.now.facts.ends }
        ensures of_past { (past : List HookMark) → StandsFor self.now.facts past → result ≡ ends_in past }
        ensures one_at_a_time { (result ≤ self.now.facts.starts) × (self.now.facts.starts ≤ result + 1) }
    {
        self.facts.ends()
    }
}

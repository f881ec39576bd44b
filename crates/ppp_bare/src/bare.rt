ghost use Rattle.std.specs.Prelude.{option_map, ◌≡◌, ℕ, ◌^◌, ◌<◌, ◌≤◌, ◌↔◌, true, false, ◌==◌, [], ◌∷◌, IsSome, IfSome, IfNone, OnSome, IfOk, OnOk, OnErr, IsOk, IfErr, Some, None};
ghost use Rattle.ppp_base.specs.declared.hook_target.HookTarget.TheVariants.{Unit as OfUnit};
ghost use Rattle.ppp_bare.specs.Acts.{after_acts, log_acts};
ghost use Rattle.ppp_bare.specs.Bare.{FollowsLaw, IsBare, bare_args};
ghost use Rattle.ppp_fsm.specs.Fsm.{acts_of, after};
ghost use Rattle.ppp_fsm.specs.Opening.{layer_change};
ghost use Rattle.ppp_hooks.specs.HookMark.{Ended};
ghost use Rattle.ppp_hooks.specs.HookFacts.{no_facts};
ghost use Rattle.ppp_hooks.specs.HookPast.{ends_in, last_in, not_started_in, running_in, starts_in};
ghost use Rattle.ppp_hooks.specs.HookRule.{with_due};
ghost use Rattle.ppp_hooks.specs.HookWords.{words_in};
ghost use Rattle.ppp_mark.specs.Log.{no_marks, room_of};
ghost use Rattle.ppp_mark.specs.ScriptLog.{Grows, IsRunningJob, log_ended};
ghost use Rattle.ppp_mark.specs.Scripts.{KeepsRunning, said_in};

use ppp_base::{HookTarget, Name, NoMemory, Unit};
use ppp_fsm::{Acts, Fsm, FsmEvent, Limits};
use ppp_hooks::{HookDone, HookJob, HookStart};
use ppp_mark::{Log, ScriptLog};
use ppp_outside::{HookArgs, Spawner};
use std::alloc::Global;
use std::marker::Model;

/// How many marks the log of a bare automaton has room for: three for each step of a trace.
pub const MOST_MARKS: u32 = 300_000;

/// The number of the state Opened.
const OPENED: u8 = 9;

/// One automaton with its ip scripts, and the log of what they did. Its restart counter begins with 10 Configure-Requests
/// and 3 Terminate-Requests.
#[derive(Drop)]
pub struct Bare<S: Spawner> {
    fsm: Fsm,
    scripts: ScriptLog<S>,
}

impl<S: Spawner> Model for Bare<S> {
    ghost use Rattle.std.specs.Prelude.{◌==◌};
    ghost use Rattle.ppp_bare.specs.Bare.{BareState, IsBare};

    ghost Value = { BareState S };

    ghost view = { λ b. record { automaton = b.fsm; scripts = b.scripts } };

    ghost invariant = { λ b. IsBare (b.fsm.state == 9) b.scripts };
}

// What the scripts of a bare automaton are told.
fn no_args() -> HookArgs
    ensures { result ≡ bare_args }
{
    HookArgs {
        unit: Unit::zero(),
        device: Name::new(),
        peer: Name::new(),
        local: [0; 4],
        remote: [0; 4],
        param: Name::new(),
    }
}

// The protocol goes from one of open and closed to the other, or stays.
fn follow<S: Spawner>(scripts: &mut ScriptLog<S>, was_open: bool, is_open: bool)
    requires bare { IsBare was_open scripts.old }
    requires room { 2 ≤ room_of scripts.old.log }
    ensures bare { IsBare is_open scripts.new }
    ensures log { scripts.new.log ≡ log_acts (layer_change was_open is_open) scripts.old.log }
    ensures said { said_in scripts.new.log.past ≡ after_acts (layer_change was_open is_open) (said_in scripts.old.log.past) }
    ensures spawner { scripts.new.machine.spawner ≡ scripts.old.machine.spawner }
    ensures running { KeepsRunning (said_in scripts.old.log.past) (said_in scripts.new.log.past) }
    ensures grows { Grows 2 scripts.old.log scripts.new.log }
{
    match (was_open, is_open) {
        (false, true) => scripts.opens(no_args(), 0),
        (true, false) => scripts.closes(0),
        (false, false) => {}
        (true, true) => {}
    }
}

impl<S: Spawner> Bare<S> {
    /// An automaton in Initial, whose log has room for `MOST_MARKS` marks.
    pub fn new(alloc: Global, spawner: S) -> Result<Bare<S>, NoMemory>
        requires tries { S.tries spawner < 2 ^ 63 }
        requires faults { S.faults spawner < 2 ^ 63 }
        ensures automaton { IfOk result (λ b. b.automaton ≡ record { configure = 10; terminate = 3; state = 0; counter = 0 }) }
        ensures scripts { IfOk result (λ b. b.scripts ≡ record { machine = record { target = OfUnit 0; facts = no_facts; spawner = Some spawner }; log = no_marks MOST_MARKS }) }
    {
        let limits = Limits {
            configure: 10,
            terminate: 3,
        };
        let target = HookTarget::Unit(Unit::zero());
        let scripts = ScriptLog::new(alloc, target, spawner, MOST_MARKS)?;
        Ok(Bare {
            fsm: Fsm::new(limits),
            scripts,
        })
    }

    /// Does one event of the automaton, and answers its acts. It takes no memory.
    pub fn apply(&mut self, event: FsmEvent) -> Acts
        requires room { 3 ≤ room_of self.old.scripts.log }
        ensures acts { result ≡ acts_of self.old.automaton event }
        ensures automaton { self.new.automaton ≡ after self.old.automaton event }
        ensures log { self.new.scripts.log ≡ log_acts (acts_of self.old.automaton event) self.old.scripts.log }
        ensures said { said_in self.new.scripts.log.past ≡ after_acts (acts_of self.old.automaton event) (said_in self.old.scripts.log.past) }
        ensures bare { IsBare (self.new.automaton.state == 9) self.new.scripts }
        ensures law { FollowsLaw self.new.automaton self.new.scripts.log.past }
        ensures spawner { self.new.scripts.machine.spawner ≡ self.old.scripts.machine.spawner }
        ensures running { KeepsRunning (said_in self.old.scripts.log.past) (said_in self.new.scripts.log.past) }
        ensures grows { Grows 2 self.old.scripts.log self.new.scripts.log }
    {
        let was_open = self.fsm.state() == OPENED;
        let acts = self.fsm.apply(event);
        let is_open = self.fsm.state() == OPENED;
        follow(&mut self.scripts, was_open, is_open);
        acts
    }

    /// The script that was started, if its job hasn't been taken. The spawner goes with it. It takes no memory.
    pub fn take_job(&mut self) -> Option<HookJob<S>>
        ensures some { IsSome result ↔ (IsSome self.old.scripts.machine.spawner
            × (ends_in (said_in self.old.scripts.log.past) < starts_in (said_in self.old.scripts.log.past))) }
        ensures job { IfSome result (λ job. (job.target ≡ OfUnit 0) × (job.number ≡ starts_in (said_in self.old.scripts.log.past))
            × (job.not_started ≡ not_started_in (said_in self.old.scripts.log.past))) }
        ensures words { IfSome result (λ job. words_in (OfUnit 0) (λ _. bare_args) (said_in self.old.scripts.log.past) ≡ Some job.words) }
        ensures spawner { IfSome result (λ job. self.old.scripts.machine.spawner ≡ Some job.spawner) }
        ensures log { self.new.scripts.log ≡ self.old.scripts.log }
        ensures automaton { self.new.automaton ≡ self.old.automaton }
        ensures taken { OnSome result (self.new ≡ record self.old { scripts = record self.old.scripts { machine = record self.old.scripts.machine { spawner = None } } }) }
        ensures none { IfNone result (self.new ≡ self.old) }
        ensures bare { IsBare (self.new.automaton.state == 9) self.new.scripts }
    {
        self.scripts.take_job()
    }

    /// A script has ended. An `Err` gives back what isn't the job that was taken and runs, and changes nothing. It takes
    /// no memory.
    pub fn ended(&mut self, done: HookDone<S>) -> Result<(), HookDone<S>>
        requires room { 3 ≤ room_of self.old.scripts.log }
        ensures ok { IsOk result ↔ IsRunningJob done self.old.scripts }
        ensures automaton { self.new.automaton ≡ self.old.automaton }
        ensures log { OnOk result (self.new.scripts.log ≡ log_ended 0 done.answer self.old.scripts.log) }
        ensures said { OnOk result (said_in self.new.scripts.log.past ≡ with_due (Ended done.answer done.number ∷ said_in self.old.scripts.log.past)) }
        ensures spawner { OnOk result (self.new.scripts.machine.spawner ≡ Some done.spawner) }
        ensures bare { IsBare (self.new.automaton.state == 9) self.new.scripts }
        ensures law { FollowsLaw self.new.automaton self.new.scripts.log.past }
        ensures grows { Grows 2 self.old.scripts.log self.new.scripts.log }
        ensures unchanged { OnErr result (self.new ≡ self.old) }
        ensures given_back { IfErr result (λ back. back ≡ done) }
    {
        self.scripts.ended(done, 0)
    }

    /// What the scripts did.
    pub fn log(&self) -> &Log
        ensures value { result.now ≡ self.now.scripts.log }
        ensures bare { IsBare (self.now.automaton.state == 9) self.now.scripts }
        ensures law { FollowsLaw self.now.automaton self.now.scripts.log.past }
    {
        self.scripts.log()
    }

    /// The number of the job that runs, from its start to its end.
    pub fn running(&self) -> Option<u32>
        ensures { result ≡ running_in (said_in self.now.scripts.log.past) }
    {
        self.scripts.running()
    }

    /// The last start.
    pub fn last(&self) -> Option<HookStart>
        ensures { option_map (λ (s : HookStart). (s.up, s.opening)) result ≡ last_in (said_in self.now.scripts.log.past) }
    {
        self.scripts.last()
    }

    /// How many scripts were started.
    pub fn starts(&self) -> u32
        ensures { result ≡ starts_in (said_in self.now.scripts.log.past) }
    {
        self.scripts.starts()
    }

    /// The number of the automaton's state, from Initial 0 to Opened 9.
    pub fn state(&self) -> u8
        ensures { result ≡ self.now.automaton.state }
    {
        self.fsm.state()
    }

    /// The automaton's restart counter.
    pub fn counter(&self) -> u8
        ensures { result ≡ self.now.automaton.counter }
    {
        self.fsm.counter()
    }
}

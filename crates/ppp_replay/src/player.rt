ghost use Rattle.std.specs.Prelude.{◌≡◌, ◌+◌, ◌<◌, ◌≤◌, IfOk, option_map};

use ppp_bare::{Bare, MOST_MARKS};
use ppp_base::NoMemory;
use ppp_fsm::{Acts, FsmEvent};
use ppp_hooks::{HookJob, HookStart};
use ppp_outside::{ReplaySpawner, ScriptEnd};
use std::alloc::Global;
use std::marker::Model;

/// A bare automaton whose started jobs are taken at once, and end as a trace says.
#[derive(Drop)]
pub struct Player {
    bare: Bare<ReplaySpawner>,
    errand: Option<HookJob<ReplaySpawner>>,
}

impl Model for Player {
    ghost use Rattle.std.specs.Prelude.{◌==◌, length};
    ghost use Rattle.ppp_mark.specs.Scripts.{said_in};
    ghost use Rattle.ppp_replay.specs.Player.{IsOut, PlayerState};
    ghost use Rattle.ppp_bare.specs.Bare.{IsBare};

    ghost Value = { PlayerState };

    ghost view = { λ p. record { run = record { automaton = p.bare.automaton; past = said_in p.bare.scripts.log.past }; marks = length p.bare.scripts.log.past } };

    ghost invariant = { λ p. IsOut p.bare.scripts p.errand × IsBare (p.bare.automaton.state == 9) p.bare.scripts };
}

impl Player {
    ghost use Rattle.ppp_fsm.specs.Fsm.{acts_of};
    ghost use Rattle.ppp_hooks.specs.HookPast.{starts_in, last_in, running_in};
    ghost use Rattle.ppp_replay.specs.BareRun.{after_step, run_start, runs_job};
    ghost use Rattle.ppp_replay.specs.BareText.{start_since};
    ghost use Rattle.ppp_trace.specs.declared.step.BareStep.TheVariants.{Event, End};

    /// The automaton of a bare trace before its first step: Max-Configure is 10 and Max-Terminate 3.
    pub fn new(alloc: Global) -> Result<Player, NoMemory>
        ensures { IfOk result (λ p. p ≡ record { run = run_start; marks = 0 }) }
    {
        let bare = Bare::new(alloc, ReplaySpawner::new())?;
        Ok(Player { bare, errand: None })
    }

    /// Does one event of the automaton, and takes the job of a script that it starts.
    pub fn apply(&mut self, event: FsmEvent) -> Acts
        requires { self.old.marks + 3 ≤ MOST_MARKS }
        ensures acts { result ≡ acts_of self.old.run.automaton event }
        ensures run { self.new.run ≡ after_step self.old.run (Event event) }
        ensures marks { self.new.marks ≤ self.old.marks + 3 }
    {
        let acts = self.bare.apply(event);
        if self.errand.is_none() {
            self.errand = self.bare.take_job();
        }
        acts
    }

    /// Ends the script of this job, if it runs, and takes the job of the script that is started then. Answers
    /// whether it ran.
    pub fn end(&mut self, job: u32, answer: ScriptEnd) -> bool
        requires { self.old.marks + 3 ≤ MOST_MARKS }
        ensures ran { result ≡ runs_job job self.old.run.past }
        ensures run { self.new.run ≡ after_step self.old.run (End job answer) }
        ensures marks { self.new.marks ≤ self.old.marks + 3 }
    {
        if self.bare.running() != Some(job) {
            return false;
        }
        let mut errand = self.errand.take().unwrap();
        errand.next_is(&answer);
        let ended = self.bare.ended(errand.run());
        prove!(ended.is_ok());
        self.errand = self.bare.take_job();
        true
    }

    /// How many scripts were started.
    pub fn starts(&self) -> u32
        ensures { result ≡ starts_in self.now.run.past }
    {
        self.bare.starts()
    }

    /// The start that came since there were so many starts.
    pub fn start_since(&self, before: u32) -> Option<HookStart>
        ensures { option_map (λ (s : HookStart). (s.up, s.opening)) result ≡ start_since before self.now.run.past }
    {
        if self.bare.starts() == before {
            None
        } else {
            self.bare.last()
        }
    }

    /// The number of the job that runs.
    pub fn running(&self) -> Option<u32>
        ensures { result ≡ running_in self.now.run.past }
    {
        self.bare.running()
    }

    /// The number of the automaton's state, from Initial 0 to Opened 9.
    pub fn state(&self) -> u8
        ensures { result ≡ self.now.run.automaton.state }
    {
        self.bare.state()
    }

    /// The automaton's restart counter.
    pub fn counter(&self) -> u8
        ensures { result ≡ self.now.run.automaton.counter }
    {
        self.bare.counter()
    }
}

// A link's site scripts: they follow what its peer has proved (pppd(8), "auth-up", "auth-down").
ghost use Rattle.std.specs.Prelude.{◌≡◌, ℕ, ◌+◌, ◌≤◌, ◌<◌, ◌↔◌, ◌&&◌, None, Some, is_some, IsOk, OnOk, OnErr, IfErr, IfSome, IfNone, OnSome};
ghost use Rattle.ppp_base.specs.declared.hook_target.HookTarget.TheVariants.{Link};
ghost use Rattle.ppp_hooks.specs.HookFacts.{settled, with_end, with_open};
ghost use Rattle.ppp_hooks.specs.HookCounts.{DoneCounts, JobCounts, MachineCounts};
ghost use Rattle.ppp_hooks.specs.HookPast.{not_started_in, open_in, starts_in};
ghost use Rattle.ppp_hooks.specs.HookWords.{words_of_start};
ghost use Rattle.ppp_mark.specs.Log.{room_of};
ghost use Rattle.ppp_mark.specs.ScriptLog.{Grows, IsRunningJob, closed_facts, log_closed, log_ended, log_opened, next_opening};
ghost use Rattle.ppp_mark.specs.Scripts.{said_in};
ghost use Rattle.ppp_outside.specs.declared.line_words.LineWords.{LineWords};
ghost use Rattle.ppp_link_parts.specs.Records.{DialStands, told};

use crate::records::Records;
use ppp_hooks::{HookDone, HookJob};
use ppp_outside::{HookArgs, Spawner};

impl<S: Spawner> Records<S> {
    /// The peer has passed: authentication opens under the next number.
    pub fn open_scripts(&mut self, args: HookArgs, time: u64)
        requires room { 2 ≤ room_of self.old.scripts.log }
        requires closed { open_in (said_in self.old.scripts.log.past) ≡ None }
        ensures new { self.new ≡ record self.old {
          scripts = record self.old.scripts {
            machine = record self.old.scripts.machine { facts = settled (with_open self.old.scripts.machine.facts (next_opening self.old.scripts.log) args) };
            log = log_opened (Link self.old.id) time self.old.scripts.log;
          };
        } }
        ensures dials { (line : LineWords) → DialStands line self.old → DialStands line self.new }
        ensures grows { Grows 2 self.old.scripts.log self.new.scripts.log }
    {
        self.scripts.opens(args, time);
    }

    /// Authentication closes, if it is open.
    pub fn close_scripts(&mut self, time: u64)
        requires room { 2 ≤ room_of self.old.scripts.log }
        ensures new { self.new ≡ record self.old {
          scripts = record self.old.scripts {
            machine = record self.old.scripts.machine { facts = closed_facts self.old.scripts.machine.facts };
            log = log_closed (Link self.old.id) time self.old.scripts.log;
          };
        } }
        ensures dials { (line : LineWords) → DialStands line self.old → DialStands line self.new }
        ensures grows { Grows 2 self.old.scripts.log self.new.scripts.log }
    {
        self.scripts.closes(time);
    }

    /// The script that was started, if its job hasn't been taken. The spawner goes with it.
    pub fn take_job(&mut self) -> Option<HookJob<S>>
        ensures some { is_some result ≡ (is_some (told self.old).running && is_some self.old.scripts.machine.spawner) }
        ensures job { IfSome result (λ job. (job.target ≡ Link self.old.id) × (job.number ≡ (told self.old).starts)) }
        ensures said { IfSome result (λ job. (job.number ≡ starts_in (said_in self.old.scripts.log.past)) × (job.not_started ≡ not_started_in (said_in self.old.scripts.log.past))) }
        ensures words { IfSome result (λ job. words_of_start (Link self.old.id) self.old.scripts.machine.facts.last ≡ Some job.words) }
        ensures spawner { IfSome result (λ job. self.old.scripts.machine.spawner ≡ Some job.spawner) }
        ensures taken { OnSome result (self.new ≡ record self.old { scripts = record self.old.scripts { machine = record self.old.scripts.machine { spawner = None } } }) }
        ensures none { IfNone result (self.new ≡ self.old) }
        ensures dials { (line : LineWords) → DialStands line self.old → DialStands line self.new }
    {
        let _ends = self.scripts.ends();
        self.scripts.take_job()
    }

    /// A script has ended. An `Err` gives back what isn't the job that was taken and runs, and changes nothing.
    pub fn end_job(&mut self, done: HookDone<S>, time: u64) -> Result<(), HookDone<S>>
        requires room { 2 ≤ room_of self.old.scripts.log }
        ensures target { self.old.scripts.machine.target ≡ Link self.old.id }
        ensures ok { IsOk result ↔ IsRunningJob done self.old.scripts }
        ensures new { OnOk result (self.new ≡ record self.old {
          scripts = record self.old.scripts {
            machine = record self.old.scripts.machine { facts = settled (with_end self.old.scripts.machine.facts done.answer); spawner = Some done.spawner };
            log = log_ended time done.answer self.old.scripts.log;
          };
        }) }
        ensures unchanged { OnErr result (self.new ≡ self.old) }
        ensures back { IfErr result (λ back. back ≡ done) }
        ensures dials { (line : LineWords) → DialStands line self.old → DialStands line self.new }
        ensures grows { Grows 2 self.old.scripts.log self.new.scripts.log }
    {
        self.scripts.ended(done, time)
    }
}

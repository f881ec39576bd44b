ghost use Rattle.std.specs.Prelude.{◌≡◌, ℕ, ◌+◌, ◌^◌, ◌<◌, ◌≤◌, ◌↔◌, true, false, ◌==◌, if◌then◌else◌, [], ◌∷◌, ◌++◌, None, Some, is_some, List, length, option_map, IsSome, IfSome, IfNone, OnSome, IfOk, OnOk, OnErr, IsOk, IfErr};
ghost use Rattle.ppp_hooks.specs.HookCounts.{MachineCounts, JobCounts, DoneCounts};
ghost use Rattle.ppp_hooks.specs.HookFacts.{HasArgs, no_facts, opening_number, settled, start_mark, with_closed, with_end, with_open};
ghost use Rattle.ppp_hooks.specs.HookMark.{Opened, Closed, Ended};
ghost use Rattle.ppp_hooks.specs.HookPast.{ends_in, greatest_in, last_in, not_started_in, open_in, running_in, starts_in};
ghost use Rattle.ppp_hooks.specs.HookRule.{with_due};
ghost use Rattle.ppp_hooks.specs.HookRuns.{GivenLast, IsFaithful, MachineTells};
ghost use Rattle.ppp_hooks.specs.HookState.{JobState};
ghost use Rattle.ppp_hooks.specs.HookWords.{words_in, words_of_start};
ghost use Rattle.ppp_base.specs.declared.hook_target.HookTarget.{HookTarget};
ghost use Rattle.ppp_base.specs.declared.hook_target.HookTarget.TheVariants.{Unit as OfUnit};
ghost use Rattle.ppp_mark.specs.Log.{AreOf, added, no_marks, room_of};
ghost use Rattle.ppp_mark.specs.ScriptLog.{Grows, IsKept, IsRunningJob, KeepsLaw, closed_facts, closed_mark, log_closed, log_ended, log_opened, next_opening, opened_mark, with_addresses, with_due_mark};
ghost use Rattle.ppp_mark.specs.Scripts.{KeepsRunning, marks_at, said_in, says_scripts};
ghost use Rattle.ppp_mark.specs.Table.{IsInTable, is_kind, stands_in};

use crate::log::Log;
use crate::mark::Mark;
use ppp_base::{HookTarget, NoMemory};
use ppp_hooks::{HookDone, HookJob, HookMachine, HookStart};
use ppp_outside::{HookArgs, Ran, Spawner};
use std::alloc::Global;
use std::marker::Model;

/// How many marks a log of scripts has room for at most.
pub const MOST_LIMIT: u32 = 1_048_576;

/// The machine of the site scripts of a link or a unit, together with its log. The log has other marks too. Behind each
/// opening, closing and end stands at once the start that is due then.
#[derive(Drop)]
pub struct ScriptLog<S: Spawner> {
    machine: HookMachine<S>,
    log: Log,
}

impl<S: Spawner> Model for ScriptLog<S> {
    ghost use Rattle.ppp_mark.specs.ScriptLog.{IsKept, ScriptLogState};

    ghost Value = { ScriptLogState S };

    ghost view = { λ s. record { machine = s.machine; log = s.log } };

    ghost invariant = { λ s. IsKept s.machine s.log };
}

// The mark of an opening.
fn mark_open(target: HookTarget, time: u64, opening: u32) -> Mark
    ensures value { result ≡ opened_mark target time opening }
    ensures kind { is_kind result.kind ≡ true }
    ensures of_target { stands_in target result.kind ≡ true }
    ensures in_table { IsInTable result }
{
    match target {
        HookTarget::Link(_) => Mark::auth_open(time, opening),
        HookTarget::Unit(_) => Mark::ip_open(time, opening),
    }
}

// The mark of a closing.
fn mark_closed(target: HookTarget, time: u64, opening: u32) -> Mark
    ensures value { result ≡ closed_mark target time opening }
    ensures kind { is_kind result.kind ≡ true }
    ensures of_target { stands_in target result.kind ≡ true }
    ensures in_table { IsInTable result }
{
    match target {
        HookTarget::Link(_) => Mark::auth_closed(time, opening),
        HookTarget::Unit(_) => Mark::ip_closed(time, opening),
    }
}

// Adds the mark of what was started since there were so many starts.
fn mark_start<S: Spawner>(log: &mut Log, machine: &HookMachine<S>, before: u32, time: u64)
    requires { 0 < room_of log.old }
    ensures of_table { (target : HookTarget) → AreOf target log.old.past → AreOf target log.new.past }
    ensures log { log.new ≡ record log.old { past = marks_at time (if machine.now.facts.starts == before then [] else start_mark machine.now.facts.last) ++ log.old.past } }
{
    if machine.starts() == before {
        return;
    }
    if let Some(start) = machine.last() {
        log.add(Mark::started(time, start.up, start.opening));
    }
}

// The protocol opens under the next number.
fn open_scripts<S: Spawner>(machine: &mut HookMachine<S>, log: &mut Log, args: HookArgs, time: u64)
    requires kept { IsKept machine.old log.old }
    requires room { 2 ≤ room_of log.old }
    requires closed { open_in (said_in log.old.past) ≡ None }
    ensures machine { machine.new ≡ record machine.old { facts = settled (with_open machine.old.facts (next_opening log.old) args) } }
    ensures log { log.new ≡ log_opened machine.old.target time log.old }
    ensures kept { IsKept machine.new log.new }
    ensures said { said_in log.new.past ≡ with_due (Opened (next_opening log.old) ∷ said_in log.old.past) }
    ensures running { KeepsRunning (said_in log.old.past) (said_in log.new.past) }
    ensures told { (before : List Ran) (given : ℕ → HookArgs) → MachineTells S.runs before given (said_in log.old.past) machine.old
        → MachineTells S.runs before given (said_in log.new.past) machine.new }
    ensures out { (before : List Ran) (given : ℕ → HookArgs) (job : JobState S) → machine.old.spawner ≡ None
        → GivenLast S.runs before given (said_in log.old.past) job → GivenLast S.runs before given (said_in log.new.past) job }
{
    let before = machine.starts();
    let opening = machine.greatest() + 1;
    log.add(mark_open(machine.target(), time, opening));
    machine.opened(opening, args);
    mark_start(log, machine, before, time);
}

// The opening of this number closes.
fn close_scripts<S: Spawner>(machine: &mut HookMachine<S>, log: &mut Log, opening: u32, time: u64)
    requires kept { IsKept machine.old log.old }
    requires room { 2 ≤ room_of log.old }
    requires opened { opening_number machine.old.facts.now_open ≡ Some opening }
    ensures machine { machine.new ≡ record machine.old { facts = settled (with_closed machine.old.facts) } }
    ensures log { log.new ≡ with_due_mark time (closed_mark machine.old.target time opening) log.old }
    ensures kept { IsKept machine.new log.new }
    ensures said { said_in log.new.past ≡ with_due (Closed opening ∷ said_in log.old.past) }
    ensures running { KeepsRunning (said_in log.old.past) (said_in log.new.past) }
    ensures told { (before : List Ran) (given : ℕ → HookArgs) → MachineTells S.runs before given (said_in log.old.past) machine.old
        → MachineTells S.runs before given (said_in log.new.past) machine.new }
    ensures out { (before : List Ran) (given : ℕ → HookArgs) (job : JobState S) → machine.old.spawner ≡ None
        → GivenLast S.runs before given (said_in log.old.past) job → GivenLast S.runs before given (said_in log.new.past) job }
{
    let before = machine.starts();
    log.add(mark_closed(machine.target(), time, opening));
    machine.closed();
    mark_start(log, machine, before, time);
}

// A script has ended.
fn end_script<S: Spawner>(
    machine: &mut HookMachine<S>,
    log: &mut Log,
    done: HookDone<S>,
    time: u64,
) -> Result<(), HookDone<S>>
    requires kept { IsKept machine.old log.old }
    requires room { 2 ≤ room_of log.old }
    ensures ok { IsOk result ↔ IsRunningJob done (record { machine = machine.old; log = log.old }) }
    ensures machine { OnOk result (machine.new ≡ record machine.old { facts = settled (with_end machine.old.facts done.answer); spawner = Some done.spawner }) }
    ensures log { OnOk result (log.new ≡ log_ended time done.answer log.old) }
    ensures kept { IsKept machine.new log.new }
    ensures said { OnOk result (said_in log.new.past ≡ with_due (Ended done.answer done.number ∷ said_in log.old.past)) }
    ensures counts { (t f : ℕ) → DoneCounts S.tries S.faults t f done → OnOk result (MachineCounts S.tries S.faults t f machine.new) }
    ensures told { (before : List Ran) (given : ℕ → HookArgs) (job : JobState S) → job.target ≡ machine.old.target
        → GivenLast S.runs before given (said_in log.old.past) job → IsFaithful S.runs job done
        → OnOk result (MachineTells S.runs before given (said_in log.new.past) machine.new) }
    ensures unchanged { OnErr result ((machine.new ≡ machine.old) × (log.new ≡ log.old)) }
    ensures given_back { IfErr result (λ back. back ≡ done) }
{
    let before = machine.starts();
    let answer = done.answer();
    let number = done.number();
    match machine.ended(done) {
        Err(done) => Err(done),
        Ok(()) => {
            log.add(Mark::ended(time, answer, number));
            mark_start(log, machine, before, time);
            Ok(())
        }
    }
}

impl<S: Spawner> ScriptLog<S> {
    /// A machine of a protocol that is closed, and an empty log with room for so many marks.
    pub fn new(
        alloc: Global,
        target: HookTarget,
        spawner: S,
        limit: u32,
    ) -> Result<ScriptLog<S>, NoMemory>
        requires tries { S.tries spawner < 2 ^ 63 }
        requires faults { S.faults spawner < 2 ^ 63 }
        requires limit { limit ≤ MOST_LIMIT }
        ensures value { IfOk result (λ s. s ≡ record { machine = record { target = target; facts = no_facts; spawner = Some spawner }; log = no_marks limit }) }
        ensures stands { IfOk result (λ s. IsKept s.machine s.log) }
        ensures args { IfOk result (λ s. (given : ℕ → HookArgs) → HasArgs given s.machine.facts) }
        ensures counts { IfOk result (λ s. MachineCounts S.tries S.faults (S.tries spawner) (S.faults spawner) s.machine) }
        ensures told { IfOk result (λ s. (given : ℕ → HookArgs) → IfSome (S.runs spawner) (λ before. MachineTells S.runs before given [] s.machine)) }
    {
        let log = Log::new(alloc, limit)?;
        Ok(ScriptLog {
            machine: HookMachine::new(target, spawner),
            log,
        })
    }

    /// The protocol opens under the next number. Its scripts are told these arguments. It takes no memory.
    pub fn opens(&mut self, args: HookArgs, time: u64)
        requires room { 2 ≤ room_of self.old.log }
        requires closed { open_in (said_in self.old.log.past) ≡ None }
        ensures log { self.new.log ≡ log_opened self.old.machine.target time self.old.log }
        ensures machine { self.new.machine ≡ record self.old.machine { facts = settled (with_open self.old.machine.facts (next_opening self.old.log) args) } }
        ensures stands { IsKept self.new.machine self.new.log }
        ensures grows { Grows 2 self.old.log self.new.log }
        ensures said { said_in self.new.log.past ≡ with_due (Opened (next_opening self.old.log) ∷ said_in self.old.log.past) }
        ensures running { KeepsRunning (said_in self.old.log.past) (said_in self.new.log.past) }
        ensures args { (given : ℕ → HookArgs) → HasArgs given self.old.machine.facts → given (next_opening self.old.log) ≡ args → HasArgs given self.new.machine.facts }
        ensures told { (before : List Ran) (given : ℕ → HookArgs) → MachineTells S.runs before given (said_in self.old.log.past) self.old.machine
            → MachineTells S.runs before given (said_in self.new.log.past) self.new.machine }
        ensures out { (before : List Ran) (given : ℕ → HookArgs) (job : JobState S) → self.old.machine.spawner ≡ None
            → GivenLast S.runs before given (said_in self.old.log.past) job → GivenLast S.runs before given (said_in self.new.log.past) job }
        ensures counts { (t f : ℕ) → MachineCounts S.tries S.faults t f self.old.machine → MachineCounts S.tries S.faults t f self.new.machine }
    {
        open_scripts(&mut self.machine, &mut self.log, args, time);
    }

    /// IP opens under the next number, and the marks of its addresses stand behind the start that it led to. The scripts
    /// are told these arguments. It takes no memory.
    pub fn opens_with_addresses(&mut self, args: HookArgs, time: u64)
        requires unit { (unit : ℕ) × (self.old.machine.target ≡ OfUnit unit) }
        requires room { 4 ≤ room_of self.old.log }
        requires closed { open_in (said_in self.old.log.past) ≡ None }
        ensures log { self.new.log ≡ with_addresses time args (log_opened self.old.machine.target time self.old.log) }
        ensures machine { self.new.machine ≡ record self.old.machine { facts = settled (with_open self.old.machine.facts (next_opening self.old.log) args) } }
        ensures stands { IsKept self.new.machine self.new.log }
        ensures grows { Grows 4 self.old.log self.new.log }
        ensures said { said_in self.new.log.past ≡ with_due (Opened (next_opening self.old.log) ∷ said_in self.old.log.past) }
        ensures running { KeepsRunning (said_in self.old.log.past) (said_in self.new.log.past) }
        ensures args { (given : ℕ → HookArgs) → HasArgs given self.old.machine.facts → given (next_opening self.old.log) ≡ args → HasArgs given self.new.machine.facts }
        ensures told { (before : List Ran) (given : ℕ → HookArgs) → MachineTells S.runs before given (said_in self.old.log.past) self.old.machine
            → MachineTells S.runs before given (said_in self.new.log.past) self.new.machine }
        ensures out { (before : List Ran) (given : ℕ → HookArgs) (job : JobState S) → self.old.machine.spawner ≡ None
            → GivenLast S.runs before given (said_in self.old.log.past) job → GivenLast S.runs before given (said_in self.new.log.past) job }
        ensures counts { (t f : ℕ) → MachineCounts S.tries S.faults t f self.old.machine → MachineCounts S.tries S.faults t f self.new.machine }
    {
        let local = args.local;
        let remote = args.remote;
        self.opens(args, time);
        self.put(Mark::local(time, local));
        self.put(Mark::remote(time, remote));
    }

    /// The protocol closes, if it is open. It takes no memory.
    pub fn closes(&mut self, time: u64)
        requires room { 2 ≤ room_of self.old.log }
        ensures log { self.new.log ≡ log_closed self.old.machine.target time self.old.log }
        ensures machine { self.new.machine ≡ record self.old.machine { facts = closed_facts self.old.machine.facts } }
        ensures stands { IsKept self.new.machine self.new.log }
        ensures grows { Grows 2 self.old.log self.new.log }
        ensures said { (n : ℕ) → open_in (said_in self.old.log.past) ≡ Some n → said_in self.new.log.past ≡ with_due (Closed n ∷ said_in self.old.log.past) }
        ensures shut { open_in (said_in self.new.log.past) ≡ None }
        ensures running { KeepsRunning (said_in self.old.log.past) (said_in self.new.log.past) }
        ensures args { (given : ℕ → HookArgs) → HasArgs given self.old.machine.facts → HasArgs given self.new.machine.facts }
        ensures told { (before : List Ran) (given : ℕ → HookArgs) → MachineTells S.runs before given (said_in self.old.log.past) self.old.machine
            → MachineTells S.runs before given (said_in self.new.log.past) self.new.machine }
        ensures out { (before : List Ran) (given : ℕ → HookArgs) (job : JobState S) → self.old.machine.spawner ≡ None
            → GivenLast S.runs before given (said_in self.old.log.past) job → GivenLast S.runs before given (said_in self.new.log.past) job }
        ensures counts { (t f : ℕ) → MachineCounts S.tries S.faults t f self.old.machine → MachineCounts S.tries S.faults t f self.new.machine }
    {
        if let Some(opening) = self.machine.now_open() {
            close_scripts(&mut self.machine, &mut self.log, opening, time);
        }
    }

    /// The script that was started, if its job hasn't been taken. The spawner goes with it. It takes no memory.
    pub fn take_job(&mut self) -> Option<HookJob<S>>
        ensures some { IsSome result ↔ (IsSome self.old.machine.spawner × (ends_in (said_in self.old.log.past) < starts_in (said_in self.old.log.past))) }
        ensures job { IfSome result (λ job. (job.target ≡ self.old.machine.target) × (job.number ≡ starts_in (said_in self.old.log.past))
            × (job.not_started ≡ not_started_in (said_in self.old.log.past))) }
        ensures words { (given : ℕ → HookArgs) → HasArgs given self.old.machine.facts
            → IfSome result (λ job. words_in self.old.machine.target given (said_in self.old.log.past) ≡ Some job.words) }
        ensures exact { IfSome result (λ job. words_of_start self.old.machine.target self.old.machine.facts.last ≡ Some job.words) }
        ensures spawner { IfSome result (λ job. self.old.machine.spawner ≡ Some job.spawner) }
        ensures taken { OnSome result (self.new ≡ record self.old { machine = record self.old.machine { spawner = None } }) }
        ensures none { IfNone result (self.new ≡ self.old) }
        ensures stands { IsKept self.new.machine self.new.log }
        ensures counts { (t f : ℕ) → MachineCounts S.tries S.faults t f self.old.machine → IfSome result (JobCounts S.tries S.faults t f) }
        ensures told { (before : List Ran) (given : ℕ → HookArgs) → HasArgs given self.old.machine.facts
            → MachineTells S.runs before given (said_in self.old.log.past) self.old.machine
            → IfSome result (GivenLast S.runs before given (said_in self.old.log.past)) }
    {
        self.machine.take_job()
    }

    /// A script has ended. An `Err` gives back what isn't the job that was taken and runs, and changes nothing. It takes
    /// no memory.
    pub fn ended(&mut self, done: HookDone<S>, time: u64) -> Result<(), HookDone<S>>
        requires room { 2 ≤ room_of self.old.log }
        ensures ok { IsOk result ↔ IsRunningJob done self.old }
        ensures log { OnOk result (self.new.log ≡ log_ended time done.answer self.old.log) }
        ensures machine { OnOk result (self.new.machine ≡ record self.old.machine { facts = settled (with_end self.old.machine.facts done.answer); spawner = Some done.spawner }) }
        ensures stands { IsKept self.new.machine self.new.log }
        ensures grows { Grows 2 self.old.log self.new.log }
        ensures args { (given : ℕ → HookArgs) → HasArgs given self.old.machine.facts → HasArgs given self.new.machine.facts }
        ensures said { OnOk result (said_in self.new.log.past ≡ with_due (Ended done.answer done.number ∷ said_in self.old.log.past)) }
        ensures told { (before : List Ran) (given : ℕ → HookArgs) (job : JobState S) → job.target ≡ self.old.machine.target
            → GivenLast S.runs before given (said_in self.old.log.past) job → IsFaithful S.runs job done
            → OnOk result (MachineTells S.runs before given (said_in self.new.log.past) self.new.machine) }
        ensures counts { (t f : ℕ) → DoneCounts S.tries S.faults t f done → OnOk result (MachineCounts S.tries S.faults t f self.new.machine) }
        ensures unchanged { OnErr result (self.new ≡ self.old) }
        ensures given_back { IfErr result (λ back. back ≡ done) }
    {
        end_script(&mut self.machine, &mut self.log, done, time)
    }

    /// Adds a mark that says nothing of scripts. It takes no memory.
    pub fn put(&mut self, mark: Mark)
        requires room { 0 < room_of self.old.log }
        requires owner { stands_in self.old.machine.target mark.kind ≡ true }
        requires in_table { IsInTable mark }
        requires other { says_scripts mark.kind ≡ false }
        ensures log { self.new.log ≡ added mark self.old.log }
        ensures machine { self.new.machine ≡ self.old.machine }
        ensures said { said_in self.new.log.past ≡ said_in self.old.log.past }
        ensures stands { IsKept self.new.machine self.new.log }
    {
        self.log.add(mark);
    }

    /// What happened.
    pub fn log(&self) -> &Log
        ensures value { result.now ≡ self.now.log }
        ensures law { KeepsLaw self.now.log.past }
        ensures stands { IsKept self.now.machine self.now.log }
    {
        &self.log
    }

    /// How many marks may still be added.
    pub fn room(&self) -> u32
        ensures value { result ≡ room_of self.now.log }
        ensures stands { IsKept self.now.machine self.now.log }
    {
        self.log.room()
    }

    /// The number of the opening that is open.
    pub fn now_open(&self) -> Option<u32>
        ensures value { result ≡ open_in (said_in self.now.log.past) }
        ensures stands { IsKept self.now.machine self.now.log }
    {
        self.machine.now_open()
    }

    /// How many openings there were so far.
    pub fn openings(&self) -> u32
        ensures value { result ≡ self.now.machine.facts.greatest }
        ensures of_past { result ≡ greatest_in (said_in self.now.log.past) }
        ensures stands { IsKept self.now.machine self.now.log }
    {
        self.machine.greatest()
    }

    /// The number of the job that runs, from its start to its end.
    pub fn running(&self) -> Option<u32>
        ensures value { result ≡ running_in (said_in self.now.log.past) }
        ensures stands { IsKept self.now.machine self.now.log }
    {
        self.machine.running()
    }

    /// The last start.
    pub fn last(&self) -> Option<HookStart>
        ensures value { option_map (λ (s : HookStart). (s.up, s.opening)) result ≡ last_in (said_in self.now.log.past) }
        ensures stands { IsKept self.now.machine self.now.log }
    {
        self.machine.last()
    }

    /// How many scripts were started.
    pub fn starts(&self) -> u32
        ensures value { result ≡ starts_in (said_in self.now.log.past) }
        ensures few { result ≤ length self.now.log.past }
        ensures stands { IsKept self.now.machine self.now.log }
    {
        self.machine.starts()
    }

    /// How many scripts have ended.
    pub fn ends(&self) -> u32
        ensures value { result ≡ ends_in (said_in self.now.log.past) }
        ensures one_at_a_time { (result ≤ starts_in (said_in self.now.log.past)) × (starts_in (said_in self.now.log.past) ≤ result + 1) }
        ensures stands { IsKept self.now.machine self.now.log }
    {
        self.machine.ends()
    }
}

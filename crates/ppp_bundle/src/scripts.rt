// How a unit's scripts and its log go on together.
ghost use Rattle.std.specs.Prelude.{◌≡◌, ℕ, ◌+◌, ◌≤◌, ◌<◌, ◌^◌, ◌↔◌, true, false, None, is_some, IsOk, OnOk, OnErr, IfErr, length, if◌then◌else◌};
ghost use Rattle.ppp_base.specs.declared.hook_target.HookTarget.TheVariants.{Unit as OfUnit};
ghost use Rattle.ppp_hooks.specs.HookCounts.{DoneCounts, MachineCounts};
ghost use Rattle.ppp_mark.specs.Log.{room_of};
ghost use Rattle.ppp_mark.specs.ScriptLog.{IsRunningJob};
ghost use Rattle.ppp_mark.specs.Marks.{unmade_mark};
ghost use Rattle.ppp_mark.specs.Scripts.{says_scripts};
ghost use Rattle.ppp_mark.specs.Table.{IsInTable, stands_in};
ghost use Rattle.ppp_bundle.specs.Closing.{outs, unmade};
ghost use Rattle.ppp_unit_parts.specs.Member.{has_link, stay_of};
ghost use Rattle.ppp_bundle.specs.Replay.{LogSays, SaysSame, bundle_in, stay_in};
ghost use Rattle.ppp_bundle.specs.ScriptParts.{marked, opened, over, shut};
ghost use Rattle.ppp_bundle.specs.Sound.{Adds, Moves, is_open_in};

use ppp_base::Unit;
use ppp_hooks::HookDone;
use ppp_mark::{Mark, ScriptLog};
use ppp_outside::{HookArgs, Spawner};
use ppp_unit_parts::{Live, Member};

// A mark that says nothing of scripts.
pub(crate) fn put<S: Spawner>(scripts: &mut ScriptLog<S>, mark: Mark)
    requires room { 0 < room_of scripts.old.log }
    requires owner { stands_in scripts.old.machine.target mark.kind ≡ true }
    requires in_table { IsInTable mark }
    requires other { says_scripts mark.kind ≡ false }
    ensures new { scripts.new ≡ marked mark scripts.old }
    ensures is_open { is_open_in scripts.new ≡ is_open_in scripts.old }
{
    scripts.put(mark);
}

// IP opens, with these arguments of its scripts.
#[tactic(auto, using(crate::proofs::LogFacts::open_same, crate::proofs::LogFacts::open_says))]
pub(crate) fn open_ip<S: Spawner>(scripts: &mut ScriptLog<S>, args: HookArgs, time: u64)
    requires unit { scripts.old.machine.target ≡ OfUnit args.unit }
    requires room { 4 ≤ room_of scripts.old.log }
    requires closed { is_open_in scripts.old ≡ None }
    requires says { LogSays scripts.old }
    ensures new { scripts.new ≡ opened args time scripts.old }
    ensures is_open { is_some (is_open_in scripts.new) ≡ true }
    ensures moves { Moves 4 scripts.old scripts.new }
    ensures says { LogSays scripts.new }
    ensures same { SaysSame scripts.old.log.past scripts.new.log.past }
{
    let log = scripts.log();
    let _count = log.count();
    scripts.opens_with_addresses(args, time);
}

// IP of this unit closes, where it is open.
pub(crate) fn shut_ip<S: Spawner>(scripts: &mut ScriptLog<S>, unit: Unit, time: u64)
    requires unit { scripts.old.machine.target ≡ OfUnit unit }
    requires room { 2 ≤ room_of scripts.old.log }
    requires says { LogSays scripts.old }
    ensures new { scripts.new ≡ shut time scripts.old }
    ensures is_open { is_open_in scripts.new ≡ None }
    ensures moves { Moves 2 scripts.old scripts.new }
    ensures says { LogSays scripts.new }
    ensures same { SaysSame scripts.old.log.past scripts.new.log.past }
{
    scripts.closes(time);
}

// A script has ended.
pub(crate) fn end_script<S: Spawner>(
    scripts: &mut ScriptLog<S>,
    done: HookDone<S>,
    time: u64,
) -> Result<(), HookDone<S>>
    requires room { 2 ≤ room_of scripts.old.log }
    requires says { LogSays scripts.old }
    ensures ok { IsOk result ↔ IsRunningJob done scripts.old }
    ensures new { OnOk result (scripts.new ≡ over done time scripts.old) }
    ensures is_open { OnOk result (is_open_in scripts.new ≡ is_open_in scripts.old) }
    ensures ran { OnOk result (scripts.old.machine.facts.ends + 1 ≡ scripts.old.machine.facts.starts) }
    ensures moves { OnOk result (Adds 2 scripts.old scripts.new) }
    ensures now { OnOk result (is_some scripts.old.machine.facts.now_open ≡ is_some (is_open_in scripts.old)) }
    ensures counts { (t f : ℕ) → DoneCounts S.tries S.faults t f done → OnOk result (MachineCounts S.tries S.faults t f scripts.new.machine) }
    ensures unchanged { OnErr result (scripts.new ≡ scripts.old) }
    ensures given_back { IfErr result (λ back. back ≡ done) }
    ensures says { OnOk result (LogSays scripts.new) }
    ensures same { OnOk result (SaysSame scripts.old.log.past scripts.new.log.past) }
{
    let log = scripts.log();
    let _count = log.count();
    match scripts.ended(done, time) {
        Ok(()) => Ok(()),
        Err(done) => Err(done),
    }
}

// These members go out of a bundle of this unit.
pub(crate) fn put_outs<S: Spawner>(
    scripts: &mut ScriptLog<S>,
    unit: Unit,
    members: &[Member],
    time: u64,
)
    requires unit { scripts.old.machine.target ≡ OfUnit unit }
    requires room { length members.now ≤ room_of scripts.old.log }
    requires few { length members.now ≤ 16 }
    requires says { LogSays scripts.old }
    ensures new { scripts.new ≡ outs time members.now scripts.old }
    ensures is_open { is_open_in scripts.new ≡ is_open_in scripts.old }
    ensures moves { Moves 16 scripts.old scripts.new }
    ensures says { LogSays scripts.new }
    ensures bundle { bundle_in scripts.new.log.past ≡ bundle_in scripts.old.log.past }
    ensures stays { (link : ℕ) → stay_in link scripts.new.log.past ≡ (if has_link link members.now then None else stay_in link scripts.old.log.past) }
{
    'going: for member in members {
        put(scripts, Mark::out(time, member.link, member.stay));
    }
}

// The bundle of this number is unmade.
fn put_unmade<S: Spawner>(scripts: &mut ScriptLog<S>, unit: Unit, number: u32, time: u64)
    requires unit { scripts.old.machine.target ≡ OfUnit unit }
    requires room { 0 < room_of scripts.old.log }
    requires says { LogSays scripts.old }
    ensures new { scripts.new ≡ marked (unmade_mark time number) scripts.old }
    ensures is_open { is_open_in scripts.new ≡ is_open_in scripts.old }
    ensures moves { Moves 1 scripts.old scripts.new }
    ensures says { LogSays scripts.new }
    ensures bundle { bundle_in scripts.new.log.past ≡ None }
    ensures stays { (link : ℕ) → stay_in link scripts.new.log.past ≡ stay_in link scripts.old.log.past }
{
    put(scripts, Mark::unmade(time, number));
}

// IP closes, the members go out, and the bundle is unmade.
pub(crate) fn unmake<S: Spawner>(scripts: &mut ScriptLog<S>, unit: Unit, live: &Live, time: u64)
    requires unit { scripts.old.machine.target ≡ OfUnit unit }
    requires room { 20 ≤ room_of scripts.old.log }
    requires says { LogSays scripts.old }
    requires members { (link : ℕ) → stay_of link live.now.members ≡ stay_in link scripts.old.log.past }
    ensures new { scripts.new ≡ unmade live.now time scripts.old }
    ensures is_open { is_open_in scripts.new ≡ None }
    ensures moves { Moves 19 scripts.old scripts.new }
    ensures says { LogSays scripts.new }
    ensures bundle { bundle_in scripts.new.log.past ≡ None }
    ensures stays { (link : ℕ) → stay_in link scripts.new.log.past ≡ None }
{
    shut_ip(scripts, unit, time);
    put_outs(scripts, unit, live.members.as_slice(), time);
    put_unmade(scripts, unit, live.number, time);
}

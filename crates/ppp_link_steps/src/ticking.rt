//! A tick.

ghost use Rattle.std.specs.Prelude.{◌≡◌, ◌≤◌, ◌&&◌, max, min, true, is_some};
ghost use Rattle.ppp_mark.specs.Log.{room_of};
ghost use Rattle.ppp_mark.specs.ScriptLog.{Grows};
ghost use Rattle.ppp_timer.specs.declared.slot.Slot.TheVariants.{LcpRestart, AuthRestart, Hold};
ghost use Rattle.ppp_link_rules.specs.Hearing.{chat_ticked};
ghost use Rattle.ppp_link_rules.specs.LinkState.{LinkState};
ghost use Rattle.ppp_link_rules.specs.Ticking.{lcp_moment, ticked, timers_treated, treated_if, with_time};
ghost use Rattle.ppp_link_rules.specs.declared.limits.TheConstants.{MOST_TIME};
ghost use Rattle.ppp_link_core.specs.Standing.{Does, Lives, Sits, StandsFor, opened};
ghost use Rattle.ppp_link_steps.specs.Calm.{Calm};
ghost use Rattle.ppp_link_steps.specs.Slots.{slot_if, timers_ticked};

use crate::dialling::{DialAsk, ask_dial};
use ppp_link_core::asks::LcpAsk;
use ppp_link_core::link_core::LinkCore;
use ppp_link_hearing::chat::tick_chat;
use ppp_link_rules::limits::MOST_TIME;
use ppp_outside::Spawner;
use ppp_timer::has_come;

// The greater of a time and a tick, which counts as the greatest moment at most.
fn latest(time: u64, now: u64) -> u64
    ensures { result ≡ max time (min now MOST_TIME) }
{
    time.max(now.min(MOST_TIME))
}

// Whether a slot that was due still holds a moment.
fn is_left(due: bool, held: bool) -> bool
    ensures { result ≡ (due && held) }
{
    due && held
}

// The time is set.
#[tactic(auto, using(crate::proofs::TickFacts::time_does, crate::proofs::TickFacts::time_lives, crate::proofs::TickFacts::time_calm, crate::proofs::TickFacts::time_sits))]
fn set_time<S: Spawner>(core: &mut LinkCore<S>, now: u64)
    requires lives { Lives core.old }
    requires sits { Sits (opened core.old.lcp) core.old }
    requires calm { Calm core.old }
    ensures does { Does (with_time now) core.old core.new }
    ensures rest { core.new ≡ record core.old { time = core.new.time } }
    ensures sits { Sits (opened core.new.lcp) core.new }
    ensures calm { Calm core.new }
    ensures lives { Lives core.new }
{
    core.time = latest(core.time, now);
}

// When LCP's timer is due.
#[tactic(auto, using(crate::proofs::TickFacts::moment_some, crate::proofs::TickFacts::moment_none))]
fn lcp_moment<S: Spawner>(core: &LinkCore<S>) -> Option<u64>
    ensures stands { (s : LinkState) → StandsFor core.now s → lcp_moment s.wish s.lcp ≡ result }
{
    match &core.lcp {
        Some(lcp) => lcp.deadline(),
        None => None,
    }
}

// LCP looks at the time, if it is to.
#[tactic(auto, using(crate::proofs::TickFacts::lcp_then, crate::proofs::TickFacts::lcp_else))]
fn treat_lcp<S: Spawner>(core: &mut LinkCore<S>, treat: bool)
    requires lives { Lives core.old }
    requires room { 13 ≤ room_of core.old.records.scripts.log }
    requires sits { Sits (opened core.old.lcp) core.old }
    ensures does { Does (treated_if treat LcpRestart) core.old core.new }
    ensures sits { Sits (opened core.new.lcp) core.new }
    ensures grows { Grows 13 core.old.records.scripts.log core.new.records.scripts.log }
    ensures lives { Lives core.new }
{
    if treat {
        core.call(LcpAsk::Tick);
    }
}

// LCP's slot.
#[tactic(auto, using(crate::proofs::TickFacts::lcp_does, crate::proofs::TickFacts::lcp_calm))]
fn tick_lcp<S: Spawner>(core: &mut LinkCore<S>, due: bool)
    requires lives { Lives core.old }
    requires room { 13 ≤ room_of core.old.records.scripts.log }
    requires sits { Sits (opened core.old.lcp) core.old }
    requires calm { Calm core.old }
    ensures does { Does (slot_if due LcpRestart) core.old core.new }
    ensures sits { Sits (opened core.new.lcp) core.new }
    ensures calm { Calm core.new }
    ensures grows { Grows 13 core.old.records.scripts.log core.new.records.scripts.log }
    ensures lives { Lives core.new }
{
    let moment = lcp_moment(core);
    let treat = is_left(due, moment.is_some());
    treat_lcp(core, treat);
}

// The phase of authentication looks at the time, if it is to.
#[tactic(auto, using(crate::proofs::TickFacts::auth_then, crate::proofs::TickFacts::auth_else))]
fn treat_auth<S: Spawner>(core: &mut LinkCore<S>, treat: bool)
    requires lives { Lives core.old }
    requires room { 7 ≤ room_of core.old.records.scripts.log }
    requires sits { Sits (opened core.old.lcp) core.old }
    ensures does { Does (treated_if treat AuthRestart) core.old core.new }
    ensures sits { Sits (opened core.new.lcp) core.new }
    ensures grows { Grows 7 core.old.records.scripts.log core.new.records.scripts.log }
    ensures lives { Lives core.new }
{
    if treat {
        core.tick_phase();
    }
}

// The slot of authentication.
#[tactic(auto, using(crate::proofs::TickFacts::auth_does, crate::proofs::TickFacts::auth_calm))]
fn tick_auth<S: Spawner>(core: &mut LinkCore<S>, due: bool)
    requires lives { Lives core.old }
    requires room { 7 ≤ room_of core.old.records.scripts.log }
    requires sits { Sits (opened core.old.lcp) core.old }
    requires calm { Calm core.old }
    ensures does { Does (slot_if due AuthRestart) core.old core.new }
    ensures sits { Sits (opened core.new.lcp) core.new }
    ensures calm { Calm core.new }
    ensures grows { Grows 7 core.old.records.scripts.log core.new.records.scripts.log }
    ensures lives { Lives core.new }
{
    let there = core.auth.is_some();
    let treat = is_left(due, there);
    treat_auth(core, treat);
}

// The dial looks at the time, if it is to.
#[tactic(auto, using(crate::proofs::TickFacts::hold_then, crate::proofs::TickFacts::hold_else))]
fn treat_hold<S: Spawner>(core: &mut LinkCore<S>, treat: bool)
    requires lives { Lives core.old }
    requires room { 1 ≤ room_of core.old.records.scripts.log }
    requires sits { Sits (opened core.old.lcp) core.old }
    requires calm { Calm core.old }
    ensures does { Does (treated_if treat Hold) core.old core.new }
    ensures sits { Sits (opened core.new.lcp) core.new }
    ensures calm { Calm core.new }
    ensures grows { Grows 1 core.old.records.scripts.log core.new.records.scripts.log }
    ensures lives { Lives core.new }
{
    if treat {
        ask_dial(core, DialAsk::Tick);
    }
}

// The slot of the hold.
#[tactic(auto, using(crate::proofs::TickFacts::hold_does))]
fn tick_hold<S: Spawner>(core: &mut LinkCore<S>, due: bool)
    requires lives { Lives core.old }
    requires room { 1 ≤ room_of core.old.records.scripts.log }
    requires sits { Sits (opened core.old.lcp) core.old }
    requires calm { Calm core.old }
    ensures does { Does (slot_if due Hold) core.old core.new }
    ensures sits { Sits (opened core.new.lcp) core.new }
    ensures calm { Calm core.new }
    ensures grows { Grows 1 core.old.records.scripts.log core.new.records.scripts.log }
    ensures lives { Lives core.new }
{
    let until = core.records.holds_until();
    let treat = is_left(due, until.is_some());
    treat_hold(core, treat);
}

// The slots that are due, in order, but for those that an earlier one has cleared.
#[tactic(auto, using(crate::proofs::TickFacts::timers_does))]
fn treat_slots<S: Spawner>(core: &mut LinkCore<S>)
    requires lives { Lives core.old }
    requires room { 21 ≤ room_of core.old.records.scripts.log }
    requires sits { Sits (opened core.old.lcp) core.old }
    requires calm { Calm core.old }
    ensures does { Does timers_treated core.old core.new }
    ensures sits { Sits (opened core.new.lcp) core.new }
    ensures calm { Calm core.new }
    ensures grows { Grows 21 core.old.records.scripts.log core.new.records.scripts.log }
    ensures lives { Lives core.new }
{
    let time = core.time;
    let moment = lcp_moment(core);
    let lcp_due = has_come(moment, time);
    let auth_due = core.auth.is_some();
    let until = core.records.holds_until();
    let hold_due = has_come(until, time);
    tick_lcp(core, lcp_due);
    tick_auth(core, auth_due);
    tick_hold(core, hold_due);
}

/// The time is set, and the slots that are due are treated. Behind it the chat looks at the time.
#[tactic(auto, using(crate::proofs::TickFacts::ticked_does))]
pub fn tick_timers<S: Spawner>(core: &mut LinkCore<S>, now: u64)
    requires lives { Lives core.old }
    requires room { 21 ≤ room_of core.old.records.scripts.log }
    requires sits { Sits (opened core.old.lcp) core.old }
    requires calm { Calm core.old }
    ensures does { Does (timers_ticked now) core.old core.new }
    ensures sits { Sits (opened core.new.lcp) core.new }
    ensures calm { Calm core.new }
    ensures grows { Grows 21 core.old.records.scripts.log core.new.records.scripts.log }
    ensures lives { Lives core.new }
{
    set_time(core, now);
    treat_slots(core);
}

// The chat looks at the time, if it hears.
fn treat_chat<S: Spawner>(core: &mut LinkCore<S>)
    requires lives { Lives core.old }
    requires room { 26 ≤ room_of core.old.records.scripts.log }
    requires sits { Sits (opened core.old.lcp) core.old }
    requires calm { Calm core.old }
    ensures does { Does chat_ticked core.old core.new }
    ensures sits { Sits (opened core.new.lcp) core.new }
    ensures calm { Calm core.new }
    ensures grows { Grows 26 core.old.records.scripts.log core.new.records.scripts.log }
    ensures lives { Lives core.new }
{
    tick_chat(core);
}

/// A tick: the time is set, the slots that are due are treated, and then a chat that hears looks at the time.
#[tactic(auto, using(crate::proofs::TickFacts::all_ticked))]
pub fn tick<S: Spawner>(core: &mut LinkCore<S>, now: u64)
    requires lives { Lives core.old }
    requires room { 47 ≤ room_of core.old.records.scripts.log }
    requires sits { Sits (opened core.old.lcp) core.old }
    requires calm { Calm core.old }
    ensures does { Does (ticked now) core.old core.new }
    ensures sits { Sits (opened core.new.lcp) core.new }
    ensures calm { Calm core.new }
    ensures grows { Grows 47 core.old.records.scripts.log core.new.records.scripts.log }
    ensures lives { Lives core.new }
{
    tick_timers(core, now);
    treat_chat(core);
}

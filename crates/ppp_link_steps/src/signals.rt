//! Signals.

ghost use Rattle.std.specs.Prelude.{◌≡◌, ◌≤◌, ◌||◌, ◌&&◌, true, false, None, is_none, is_some};
ghost use Rattle.ppp_base.specs.declared.signal_word.SignalWord.TheVariants.{Hup};
ghost use Rattle.ppp_dial.specs.LookingBack.{is_nothing};
ghost use Rattle.ppp_dial.specs.declared.call.CallKind.TheVariants as call;
ghost use Rattle.ppp_mark.specs.Log.{room_of};
ghost use Rattle.ppp_mark.specs.Marks.{signal_number};
ghost use Rattle.ppp_mark.specs.ScriptLog.{Grows};
ghost use Rattle.ppp_link_parts.specs.Records.{told};
ghost use Rattle.ppp_link_rules.specs.CauseStatus.{signalled};
ghost use Rattle.ppp_link_rules.specs.Dialling.{dial_says};
ghost use Rattle.ppp_link_rules.specs.LinkState.{LinkState};
ghost use Rattle.ppp_link_rules.specs.Marks.{hold_by, is_session, status_by};
ghost use Rattle.ppp_link_rules.specs.Signals.{hung_up, hung_up_by, signal_marked, signal_taken, stopped, stopped_by};
ghost use Rattle.ppp_link_core.specs.Standing.{Does, IsCause, Lives, Sits, StandsFor, opened};
ghost use Rattle.ppp_link_steps.specs.Calm.{Calm};
ghost use Rattle.ppp_link_steps.specs.Dialled.{held_up, session_hup, signal_told, stopped_now};

use crate::dialling::follow_dial;
use ppp_base::SignalWord;
use ppp_dial::DialNow;
use ppp_link_core::link_core::LinkCore;
use ppp_link_rules::cause::Cause;
use ppp_outside::Spawner;

// Why a signal ends a session.
fn signal_cause(word: SignalWord) -> Cause
    ensures cause { result ≡ signalled (signal_number word) }
    ensures table { IsCause result }
{
    let detail = match word {
        SignalWord::Hup => 1,
        SignalWord::Int => 2,
        SignalWord::Term => 3,
        SignalWord::Usr1 => 4,
        SignalWord::Usr2 => 5,
    };
    Cause { number: 11, detail }
}

// Whether a link was to stop before, or has finished.
fn is_done(stopped: bool, finished: bool) -> bool
    ensures { result ≡ (stopped || finished) }
{
    stopped || finished
}

// The mark of a hang-up in a session.
#[tactic(auto, using(crate::proofs::SignalFacts::hup_does, crate::proofs::SignalFacts::hup_lives))]
fn mark_hup<S: Spawner>(core: &mut LinkCore<S>)
    requires lives { Lives core.old }
    requires room { 1 ≤ room_of core.old.records.scripts.log }
    requires lasts { is_session (told core.old.records).doing ≡ true }
    ensures does { Does (signal_marked Hup) core.old core.new }
    ensures rest { core.new ≡ record core.old { records = core.new.records } }
    ensures grows { Grows 1 core.old.records.scripts.log core.new.records.scripts.log }
    ensures lives { Lives core.new }
{
    let time = core.time;
    core.records.mark_hup(time);
}

// A hang-up ends a session.
#[tactic(auto, using(crate::proofs::SignalFacts::session_does, crate::proofs::SignalFacts::session_calm, crate::proofs::DialFacts::sits_behind))]
fn end_by_hup<S: Spawner>(core: &mut LinkCore<S>)
    requires lives { Lives core.old }
    requires room { 6 ≤ room_of core.old.records.scripts.log }
    requires lasts { is_session (told core.old.records).doing ≡ true }
    requires sits { Sits (opened core.old.lcp) core.old }
    requires calm { Calm core.old }
    ensures does { Does session_hup core.old core.new }
    ensures sits { Sits (opened core.new.lcp) core.new }
    ensures calm { Calm core.new }
    ensures grows { Grows 6 core.old.records.scripts.log core.new.records.scripts.log }
    ensures lives { Lives core.new }
{
    mark_hup(core);
    core.end_by(signal_cause(SignalWord::Hup));
}

// A hang-up in a hold, with the mark of what the dial answers.
#[tactic(auto, using(crate::proofs::SignalFacts::told_does, crate::proofs::SignalFacts::told_lives, crate::proofs::SignalFacts::says_is, crate::proofs::SignalFacts::held_by))]
fn tell_hup<S: Spawner>(core: &mut LinkCore<S>) -> DialNow
    requires lives { Lives core.old }
    requires room { 2 ≤ room_of core.old.records.scripts.log }
    requires holds { is_some (hold_by (told core.old.records).doing) ≡ true }
    ensures does { Does (signal_told Hup result) core.old core.new }
    ensures says { (s : LinkState) → StandsFor core.old s → result ≡ dial_says call.Hup (signal_marked Hup s) }
    ensures free { is_session (told core.old.records).doing ≡ false }
    ensures rest { core.new ≡ record core.old { records = core.new.records } }
    ensures grows { Grows 2 core.old.records.scripts.log core.new.records.scripts.log }
    ensures lives { Lives core.new }
{
    let time = core.time;
    core.records.hup(time)
}

// A hang-up ends a hold.
#[tactic(auto, using(crate::proofs::SignalFacts::held_does, crate::proofs::SignalFacts::held_calm, crate::proofs::SignalFacts::held_phase, crate::proofs::DialFacts::sits_behind))]
fn end_hold<S: Spawner>(core: &mut LinkCore<S>)
    requires lives { Lives core.old }
    requires room { 2 ≤ room_of core.old.records.scripts.log }
    requires holds { is_some (hold_by (told core.old.records).doing) ≡ true }
    requires sits { Sits (opened core.old.lcp) core.old }
    requires calm { Calm core.old }
    ensures does { Does held_up core.old core.new }
    ensures sits { Sits (opened core.new.lcp) core.new }
    ensures calm { Calm core.new }
    ensures grows { Grows 2 core.old.records.scripts.log core.new.records.scripts.log }
    ensures lives { Lives core.new }
{
    let answer = tell_hup(core);
    follow_dial(core, answer);
}

// A hang-up, by whether it ends a session or a hold.
#[tactic(auto, using(crate::proofs::SignalFacts::hung_busy, crate::proofs::SignalFacts::hung_held, crate::proofs::SignalFacts::hung_else))]
fn hang_up_by<S: Spawner>(core: &mut LinkCore<S>, busy: bool, holds: bool)
    requires lives { Lives core.old }
    requires room { 6 ≤ room_of core.old.records.scripts.log }
    requires lasts { busy ≡ true → is_session (told core.old.records).doing ≡ true }
    requires holds { holds ≡ true → is_some (hold_by (told core.old.records).doing) ≡ true }
    requires sits { Sits (opened core.old.lcp) core.old }
    requires calm { Calm core.old }
    ensures does { Does (hung_up_by busy holds) core.old core.new }
    ensures sits { Sits (opened core.new.lcp) core.new }
    ensures calm { Calm core.new }
    ensures grows { Grows 6 core.old.records.scripts.log core.new.records.scripts.log }
    ensures lives { Lives core.new }
{
    if busy {
        end_by_hup(core);
    } else if holds {
        end_hold(core);
    }
}

// HUP.
#[tactic(auto, using(crate::proofs::SignalFacts::hung_does, crate::proofs::SignalFacts::busy_lasts, crate::proofs::SignalFacts::hold_there))]
fn hang_up<S: Spawner>(core: &mut LinkCore<S>)
    requires lives { Lives core.old }
    requires room { 6 ≤ room_of core.old.records.scripts.log }
    requires sits { Sits (opened core.old.lcp) core.old }
    requires calm { Calm core.old }
    ensures does { Does hung_up core.old core.new }
    ensures sits { Sits (opened core.new.lcp) core.new }
    ensures calm { Calm core.new }
    ensures grows { Grows 6 core.old.records.scripts.log core.new.records.scripts.log }
    ensures lives { Lives core.new }
{
    let busy = core.records.is_busy();
    let until = core.records.holds_until();
    let holds = until.is_some();
    hang_up_by(core, busy, holds);
}

// INT or TERM, with the mark of what the dial answers.
#[tactic(auto, using(crate::proofs::SignalFacts::told_does, crate::proofs::SignalFacts::told_lives, crate::proofs::SignalFacts::says_is, crate::proofs::SignalFacts::stop_free))]
fn tell_stop<S: Spawner>(core: &mut LinkCore<S>, word: SignalWord) -> DialNow
    requires lives { Lives core.old }
    requires room { 2 ≤ room_of core.old.records.scripts.log }
    requires word { 2 ≤ signal_number word }
    requires alive { status_by (told core.old.records).doing ≡ None }
    ensures does { Does (signal_told word result) core.old core.new }
    ensures says { (s : LinkState) → StandsFor core.old s → result ≡ dial_says call.Stop (signal_marked word s) }
    ensures free { is_nothing result ≡ false → is_session (told core.old.records).doing ≡ false }
    ensures rest { core.new ≡ record core.old { records = core.new.records } }
    ensures grows { Grows 2 core.old.records.scripts.log core.new.records.scripts.log }
    ensures lives { Lives core.new }
{
    let time = core.time;
    core.records.dial_is_in_step();
    core.records.stop(word, time)
}

// INT or TERM stops a link that hasn't finished, at once or with its session.
#[tactic(auto, using(crate::proofs::SignalFacts::stopped_does, crate::proofs::SignalFacts::stopped_calm, crate::proofs::DialFacts::no_phase, crate::proofs::DialFacts::sits_behind))]
fn stop_now<S: Spawner>(core: &mut LinkCore<S>, word: SignalWord)
    requires lives { Lives core.old }
    requires room { 7 ≤ room_of core.old.records.scripts.log }
    requires word { 2 ≤ signal_number word }
    requires alive { status_by (told core.old.records).doing ≡ None }
    requires sits { Sits (opened core.old.lcp) core.old }
    requires calm { Calm core.old }
    ensures does { Does (stopped_now word) core.old core.new }
    ensures sits { Sits (opened core.new.lcp) core.new }
    ensures calm { Calm core.new }
    ensures grows { Grows 7 core.old.records.scripts.log core.new.records.scripts.log }
    ensures lives { Lives core.new }
{
    let answer = tell_stop(core, word);
    follow_dial(core, answer);
    core.end_by(signal_cause(word));
}

// The first INT or TERM, where the link hasn't finished.
#[tactic(auto, using(crate::proofs::SignalFacts::stopped_then, crate::proofs::SignalFacts::stopped_else))]
fn stop_by<S: Spawner>(core: &mut LinkCore<S>, done: bool, word: SignalWord)
    requires lives { Lives core.old }
    requires room { 7 ≤ room_of core.old.records.scripts.log }
    requires word { 2 ≤ signal_number word }
    requires alive { done ≡ false → status_by (told core.old.records).doing ≡ None }
    requires sits { Sits (opened core.old.lcp) core.old }
    requires calm { Calm core.old }
    ensures does { Does (stopped_by done word) core.old core.new }
    ensures sits { Sits (opened core.new.lcp) core.new }
    ensures calm { Calm core.new }
    ensures grows { Grows 7 core.old.records.scripts.log core.new.records.scripts.log }
    ensures lives { Lives core.new }
{
    if !done {
        stop_now(core, word);
    }
}

// INT or TERM.
#[tactic(auto, using(crate::proofs::SignalFacts::stop_does, crate::proofs::SignalFacts::alive_by))]
fn stop<S: Spawner>(core: &mut LinkCore<S>, word: SignalWord)
    requires lives { Lives core.old }
    requires room { 7 ≤ room_of core.old.records.scripts.log }
    requires word { 2 ≤ signal_number word }
    requires sits { Sits (opened core.old.lcp) core.old }
    requires calm { Calm core.old }
    ensures does { Does (stopped word) core.old core.new }
    ensures sits { Sits (opened core.new.lcp) core.new }
    ensures calm { Calm core.new }
    ensures grows { Grows 7 core.old.records.scripts.log core.new.records.scripts.log }
    ensures lives { Lives core.new }
{
    let was_stopped = core.records.is_stopped();
    let status = core.records.status();
    let done = is_done(was_stopped, status.is_some());
    stop_by(core, done, word);
}

/// A signal comes.
#[tactic(auto, using(crate::proofs::SignalFacts::taken_hup, crate::proofs::SignalFacts::taken_int, crate::proofs::SignalFacts::taken_term, crate::proofs::SignalFacts::taken_usr1, crate::proofs::SignalFacts::taken_usr2))]
pub fn take_signal<S: Spawner>(core: &mut LinkCore<S>, word: SignalWord)
    requires lives { Lives core.old }
    requires room { 7 ≤ room_of core.old.records.scripts.log }
    requires sits { Sits (opened core.old.lcp) core.old }
    requires calm { Calm core.old }
    ensures does { Does (signal_taken word) core.old core.new }
    ensures sits { Sits (opened core.new.lcp) core.new }
    ensures calm { Calm core.new }
    ensures grows { Grows 7 core.old.records.scripts.log core.new.records.scripts.log }
    ensures lives { Lives core.new }
{
    match word {
        SignalWord::Hup => hang_up(core),
        SignalWord::Int => stop(core, SignalWord::Int),
        SignalWord::Term => stop(core, SignalWord::Term),
        SignalWord::Usr1 => {}
        SignalWord::Usr2 => {}
    }
}

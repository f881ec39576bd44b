//! A session's end, and the end of a step.

ghost use Rattle.std.specs.Prelude.{◌≡◌, ◌≤◌, ◌^◌, ◌&&◌, ◌||◌, true, false, not, is_none, is_some};
ghost use Rattle.ppp_dial.specs.declared.call.CallKind.TheVariants.{SessionOver};
ghost use Rattle.ppp_mark.specs.Log.{room_of};
ghost use Rattle.ppp_mark.specs.Marks.{over_mark};
ghost use Rattle.ppp_mark.specs.ScriptLog.{Grows};
ghost use Rattle.ppp_link_parts.specs.Records.{DialStands, answer_marked, marked_with, says, told};
ghost use Rattle.ppp_link_rules.specs.Dialling.{dial_says, end_by};
ghost use Rattle.ppp_link_rules.specs.Hearing.{looked_after};
ghost use Rattle.ppp_link_rules.specs.LinkState.{LinkState, control, is_absent, is_leaving, is_out, wants_line};
ghost use Rattle.ppp_link_rules.specs.Marks.{is_session};
ghost use Rattle.ppp_link_rules.specs.Sessions.{at_end, is_over, over_if, over_marked, session_over};
ghost use Rattle.ppp_link_core.specs.Standing.{Does, Lives, Sits, StandsFor, opened};
ghost use Rattle.ppp_link_steps.specs.Calm.{Calm};
ghost use Rattle.ppp_link_steps.specs.Dialled.{ended_now, over_told};

use crate::dialling::follow_dial;
use ppp_dial::DialNow;
use ppp_link_core::link_core::LinkCore;
use ppp_link_parts::records::Records;
use ppp_link_rules::errand::Errand;
use ppp_option_words::LinkConfig;
use ppp_outside::Spawner;

// Whether LCP still has to say goodbye.
fn is_leaving(state: u8) -> bool
    ensures { result ≡ is_leaving state }
{
    !(state == 0 || (state == 2 || state == 3))
}

// Whether there is no such errand.
fn is_absent(errand: Errand) -> bool
    ensures { result ≡ is_absent errand }
{
    match errand {
        Errand::Absent => true,
        Errand::Waiting => false,
        Errand::Out => false,
    }
}

// Whether an errand was taken and hasn't come back.
fn is_out(errand: Errand) -> bool
    ensures { result ≡ is_out errand }
{
    match errand {
        Errand::Absent => false,
        Errand::Waiting => false,
        Errand::Out => true,
    }
}

// Whether a line is wanted, by what is so.
fn is_wanted(lasting: bool, reading: Errand, ended: bool, none: bool, state: u8) -> bool
    ensures { result ≡ (lasting && (not (is_absent reading) && (not ended && (none || is_leaving state)))) }
{
    lasting && (!is_absent(reading) && (!ended && (none || is_leaving(state))))
}

// Whether a session is over, by what is so.
fn is_ended(
    lasting: bool,
    caused: bool,
    wanted: bool,
    dial: Errand,
    reading: Errand,
    writing: Errand,
) -> bool
    ensures { result ≡ (lasting && (caused && (not wanted && (is_absent dial && (not (is_out reading) && not (is_out writing)))))) }
{
    lasting && (caused && (!wanted && (is_absent(dial) && (!is_out(reading) && !is_out(writing)))))
}

/// Whether the session's line is wanted.
#[tactic(auto, using(crate::proofs::OverFacts::wants_is))]
pub fn wants_line<S: Spawner>(core: &LinkCore<S>) -> bool
    ensures stands { (s : LinkState) → StandsFor core.now s → wants_line s ≡ result }
{
    let lasting = core.records.is_lasting();
    let cause = core.records.cause();
    let state = core.state();
    is_wanted(
        lasting,
        core.reading,
        core.line_ended,
        cause.is_none(),
        state,
    )
}

/// Whether the session is over.
#[tactic(auto, using(crate::proofs::OverFacts::over_is))]
pub fn is_over<S: Spawner>(core: &LinkCore<S>) -> bool
    ensures stands { (s : LinkState) → StandsFor core.now s → is_over s ≡ result }
{
    let lasting = core.records.is_lasting();
    let cause = core.records.cause();
    let wanted = wants_line(core);
    is_ended(
        lasting,
        cause.is_some(),
        wanted,
        core.dial,
        core.reading,
        core.writing,
    )
}

// The mark of a session's end, with that of what the dial answers.
fn mark_over<S: Spawner>(records: &mut Records<S>, config: &LinkConfig, time: u64) -> DialNow
    requires room { 2 ≤ room_of records.old.scripts.log }
    requires time { time ≤ 2 ^ 56 }
    requires lasts { is_session (told records.old).doing ≡ true }
    ensures new { records.new ≡ record (answer_marked result time (marked_with (over_mark time (told records.old).was_live (told records.old).session) records.old)) { dial = records.new.dial } }
    ensures policy { records.new.dial.policy ≡ records.old.dial.policy }
    ensures answer { DialStands config.now.line records.old
        → result ≡ says config.now.line (SessionOver (end_by config.now.line (told records.old).was_live (told records.old).cause)) time (marked_with (over_mark time (told records.old).was_live (told records.old).session) records.old) }
    ensures dials { DialStands config.now.line records.old → DialStands config.now.line records.new }
    ensures grows { Grows 2 records.old.scripts.log records.new.scripts.log }
{
    records.over(&config.line, time)
}

// The end of a session, with the mark of what the dial answers.
#[tactic(auto, using(crate::proofs::OverFacts::told_does, crate::proofs::OverFacts::told_lives, crate::proofs::OverFacts::says_is, crate::proofs::DialFacts::made_sits))]
fn tell_over<S: Spawner>(core: &mut LinkCore<S>) -> DialNow
    requires lives { Lives core.old }
    requires room { 2 ≤ room_of core.old.records.scripts.log }
    requires lasts { is_session (told core.old.records).doing ≡ true }
    requires none { is_some core.old.auth ≡ false }
    ensures does { Does (over_told result) core.old core.new }
    ensures says { (s : LinkState) → StandsFor core.old s → result ≡ dial_says (SessionOver (end_by s.config.line (control s).was_live (control s).cause)) (over_marked s) }
    ensures none { is_some core.new.auth ≡ false }
    ensures sits { Sits (opened core.new.lcp) core.new }
    ensures grows { Grows 2 core.old.records.scripts.log core.new.records.scripts.log }
    ensures lives { Lives core.new }
{
    let time = core.time;
    let answer = mark_over(&mut core.records, &core.config, time);
    core.reading = Errand::Absent;
    core.writing = Errand::Absent;
    core.talk.end();
    core.lcp = None;
    core.auth = None;
    answer
}

// A session ends.
#[tactic(auto, using(crate::proofs::OverFacts::ended_does, crate::proofs::OverFacts::ended_calm))]
fn end_now<S: Spawner>(core: &mut LinkCore<S>)
    requires lives { Lives core.old }
    requires room { 2 ≤ room_of core.old.records.scripts.log }
    requires lasts { is_session (told core.old.records).doing ≡ true }
    requires none { is_some core.old.auth ≡ false }
    requires calm { Calm core.old }
    ensures does { Does ended_now core.old core.new }
    ensures sits { Sits (opened core.new.lcp) core.new }
    ensures calm { Calm core.new }
    ensures grows { Grows 2 core.old.records.scripts.log core.new.records.scripts.log }
    ensures lives { Lives core.new }
{
    let answer = tell_over(core);
    follow_dial(core, answer);
}

// A session ends, if it is over.
#[tactic(auto, using(crate::proofs::OverFacts::over_then, crate::proofs::OverFacts::over_else))]
fn end_if<S: Spawner>(core: &mut LinkCore<S>, over: bool)
    requires lives { Lives core.old }
    requires room { 2 ≤ room_of core.old.records.scripts.log }
    requires lasts { over ≡ true → is_session (told core.old.records).doing ≡ true }
    requires none { over ≡ true → is_some core.old.auth ≡ false }
    requires sits { Sits (opened core.old.lcp) core.old }
    requires calm { Calm core.old }
    ensures does { Does (over_if over) core.old core.new }
    ensures sits { Sits (opened core.new.lcp) core.new }
    ensures calm { Calm core.new }
    ensures grows { Grows 2 core.old.records.scripts.log core.new.records.scripts.log }
    ensures lives { Lives core.new }
{
    if over {
        end_now(core);
    }
}

/// A session that is over ends, and the dial says what follows.
#[tactic(auto, using(crate::proofs::OverFacts::session_does, crate::proofs::OverFacts::over_lasts, crate::proofs::OverFacts::over_phase))]
pub fn end_session<S: Spawner>(core: &mut LinkCore<S>)
    requires lives { Lives core.old }
    requires room { 2 ≤ room_of core.old.records.scripts.log }
    requires sits { Sits (opened core.old.lcp) core.old }
    requires calm { Calm core.old }
    ensures does { Does session_over core.old core.new }
    ensures sits { Sits (opened core.new.lcp) core.new }
    ensures calm { Calm core.new }
    ensures grows { Grows 2 core.old.records.scripts.log core.new.records.scripts.log }
    ensures lives { Lives core.new }
{
    let over = is_over(core);
    end_if(core, over);
}

// What stands at the end of each step, before the session's.
#[tactic(auto, using(crate::proofs::OverFacts::looked_calm))]
fn look_after<S: Spawner>(core: &mut LinkCore<S>)
    requires lives { Lives core.old }
    requires room { 6 ≤ room_of core.old.records.scripts.log }
    requires sits { Sits (opened core.old.lcp) core.old }
    requires calm { Calm core.old }
    ensures does { Does looked_after core.old core.new }
    ensures sits { Sits (opened core.new.lcp) core.new }
    ensures calm { Calm core.new }
    ensures grows { Grows 6 core.old.records.scripts.log core.new.records.scripts.log }
    ensures lives { Lives core.new }
{
    core.look_after();
}

/// The end of a step.
#[tactic(auto, using(crate::proofs::OverFacts::step_does))]
pub fn end_step<S: Spawner>(core: &mut LinkCore<S>)
    requires lives { Lives core.old }
    requires room { 8 ≤ room_of core.old.records.scripts.log }
    requires sits { Sits (opened core.old.lcp) core.old }
    requires calm { Calm core.old }
    ensures does { Does at_end core.old core.new }
    ensures sits { Sits (opened core.new.lcp) core.new }
    ensures calm { Calm core.new }
    ensures grows { Grows 8 core.old.records.scripts.log core.new.records.scripts.log }
    ensures lives { Lives core.new }
{
    look_after(core);
    end_session(core);
}

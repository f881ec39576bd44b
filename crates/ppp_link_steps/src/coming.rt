//! The dial comes back: with a line the session talks, without one it ends.

ghost use Rattle.std.specs.Prelude.{◌≡◌, ◌≤◌, ◌<◌, true, false, is_some};
ghost use Rattle.ppp_base.specs.RandomWords.{branch_of, state_after};
ghost use Rattle.ppp_mark.specs.Log.{room_of};
ghost use Rattle.ppp_mark.specs.ScriptLog.{Grows};
ghost use Rattle.ppp_link_parts.specs.Records.{told};
ghost use Rattle.ppp_link_rules.specs.Marks.{is_session};
ghost use Rattle.ppp_link_rules.specs.Sessions.{dial_come, line_come, line_come_if, with_dial_back, with_failure, with_line};
ghost use Rattle.ppp_link_rules.specs.declared.errand.Errand.TheVariants as errand;
ghost use Rattle.ppp_link_core.specs.Standing.{Does, Lives, Sits, opened};
ghost use Rattle.ppp_link_steps.specs.Calm.{Calm};
ghost use Rattle.ppp_link_steps.specs.Come.{no_line_back};

use ppp_base::RandomWords;
use ppp_lcp::Lcp;
use ppp_link_core::link_core::LinkCore;
use ppp_link_hearing::chat::begin_talk;
use ppp_link_rules::cause::Cause;
use ppp_link_rules::errand::Errand;
use ppp_link_rules::lcp_wish;
use ppp_outside::Spawner;

/// The dial is back.
#[tactic(auto, using(crate::proofs::ComeFacts::back_does, crate::proofs::ComeFacts::back_lives))]
pub fn put_dial_in<S: Spawner>(core: &mut LinkCore<S>)
    requires lives { Lives core.old }
    ensures does { Does with_dial_back core.old core.new }
    ensures rest { core.new ≡ record core.old { dial = core.new.dial } }
    ensures lives { Lives core.new }
{
    core.dial = Errand::Absent;
}

// The dial is back, and has failed.
#[tactic(auto, using(crate::proofs::ComeFacts::failed_does, crate::proofs::ComeFacts::failed_lives))]
fn put_failure<S: Spawner>(core: &mut LinkCore<S>)
    requires lives { Lives core.old }
    requires few { core.old.failed_dials < 4294967295 }
    ensures does { Does with_failure core.old core.new }
    ensures rest { core.new ≡ record core.old { dial = core.new.dial; failed_dials = core.new.failed_dials } }
    ensures lives { Lives core.new }
{
    core.dial = Errand::Absent;
    core.failed_dials += 1;
}

/// The dial that was out comes back without a line, which ends the session.
#[tactic(auto, using(crate::proofs::ComeFacts::no_line_does, crate::proofs::ComeFacts::no_line_calm, crate::proofs::ComeFacts::few_failed, crate::proofs::ComeFacts::sits_failed))]
pub fn take_failure<S: Spawner>(core: &mut LinkCore<S>)
    requires lives { Lives core.old }
    requires room { 5 ≤ room_of core.old.records.scripts.log }
    requires out { core.old.dial ≡ errand.Out }
    requires sits { Sits (opened core.old.lcp) core.old }
    requires calm { Calm core.old }
    ensures does { Does no_line_back core.old core.new }
    ensures sits { Sits (opened core.new.lcp) core.new }
    ensures calm { Calm core.new }
    ensures grows { Grows 5 core.old.records.scripts.log core.new.records.scripts.log }
    ensures lives { Lives core.new }
{
    let _sessions = core.records.session();
    put_failure(core);
    core.end_by(Cause {
        number: 1,
        detail: 0,
    });
}

// The state of a generator that is made from the next two words, and the state behind them.
fn branch(state: u64) -> (u64, u64)
    ensures made { result.0 ≡ branch_of state }
    ensures left { result.1 ≡ state_after 2 state }
{
    let mut words = RandomWords::new(state);
    let made = words.branch();
    (made.state(), words.state())
}

// A session has its line: its LCP is made anew, and its reading and its writing wait.
#[tactic(auto, using(crate::proofs::ComeFacts::line_does, crate::proofs::ComeFacts::line_sits))]
fn put_line<S: Spawner>(core: &mut LinkCore<S>)
    requires lives { Lives core.old }
    requires room { 1 ≤ room_of core.old.records.scripts.log }
    requires lasts { is_session (told core.old.records).doing ≡ true }
    requires none { is_some core.old.auth ≡ false }
    ensures does { Does with_line core.old core.new }
    ensures sits { Sits (opened core.new.lcp) core.new }
    ensures grows { Grows 1 core.old.records.scripts.log core.new.records.scripts.log }
    ensures lives { Lives core.new }
{
    let (made, left) = branch(core.words);
    let wish = lcp_wish(&core.config);
    let time = core.time;
    core.records.mark_line(time);
    core.reading = Errand::Waiting;
    core.writing = Errand::Waiting;
    core.lcp = Some(Lcp::new(wish, made));
    core.words = left;
}

// A session has its line, and talks.
#[tactic(auto, using(crate::proofs::ComeFacts::come_does))]
fn talk_by_line<S: Spawner>(core: &mut LinkCore<S>)
    requires lives { Lives core.old }
    requires room { 27 ≤ room_of core.old.records.scripts.log }
    requires lasts { is_session (told core.old.records).doing ≡ true }
    requires none { is_some core.old.auth ≡ false }
    ensures does { Does line_come core.old core.new }
    ensures sits { Sits (opened core.new.lcp) core.new }
    ensures grows { Grows 27 core.old.records.scripts.log core.new.records.scripts.log }
    ensures lives { Lives core.new }
{
    put_line(core);
    begin_talk(core);
}

// The same, unless something has ended the session.
#[tactic(auto, using(crate::proofs::ComeFacts::come_then, crate::proofs::ComeFacts::come_else))]
fn talk_if<S: Spawner>(core: &mut LinkCore<S>, busy: bool)
    requires lives { Lives core.old }
    requires room { 27 ≤ room_of core.old.records.scripts.log }
    requires lasts { busy ≡ true → is_session (told core.old.records).doing ≡ true }
    requires none { is_some core.old.auth ≡ false }
    requires sits { Sits (opened core.old.lcp) core.old }
    ensures does { Does (line_come_if busy) core.old core.new }
    ensures sits { Sits (opened core.new.lcp) core.new }
    ensures grows { Grows 27 core.old.records.scripts.log core.new.records.scripts.log }
    ensures lives { Lives core.new }
{
    if busy {
        talk_by_line(core);
    }
}

/// The dial that was out comes back with a line: the session talks by it. A session that has a cause drops it.
#[tactic(auto, using(crate::proofs::ComeFacts::taken_does, crate::proofs::SignalFacts::busy_lasts, crate::proofs::ComeFacts::out_phase, crate::proofs::ComeFacts::sits_back))]
pub fn take_line<S: Spawner>(core: &mut LinkCore<S>)
    requires lives { Lives core.old }
    requires room { 27 ≤ room_of core.old.records.scripts.log }
    requires out { core.old.dial ≡ errand.Out }
    requires sits { Sits (opened core.old.lcp) core.old }
    requires calm { Calm core.old }
    ensures does { Does (dial_come true) core.old core.new }
    ensures sits { Sits (opened core.new.lcp) core.new }
    ensures calm { Calm core.new }
    ensures grows { Grows 27 core.old.records.scripts.log core.new.records.scripts.log }
    ensures lives { Lives core.new }
{
    put_dial_in(core);
    let busy = core.records.is_busy();
    talk_if(core, busy);
}

/// The dial that was out comes back, with a line or without one.
#[tactic(auto, using(crate::proofs::ComeFacts::back_then, crate::proofs::ComeFacts::back_else))]
pub fn take_dial_back<S: Spawner>(core: &mut LinkCore<S>, came: bool)
    requires lives { Lives core.old }
    requires room { 27 ≤ room_of core.old.records.scripts.log }
    requires out { core.old.dial ≡ errand.Out }
    requires sits { Sits (opened core.old.lcp) core.old }
    requires calm { Calm core.old }
    ensures does { Does (dial_come came) core.old core.new }
    ensures sits { Sits (opened core.new.lcp) core.new }
    ensures calm { Calm core.new }
    ensures grows { Grows 27 core.old.records.scripts.log core.new.records.scripts.log }
    ensures lives { Lives core.new }
{
    if came {
        take_line(core);
    } else {
        take_failure(core);
    }
}

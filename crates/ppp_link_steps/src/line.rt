//! The session's line ends.

ghost use Rattle.std.specs.Prelude.{◌≡◌, ◌≤◌, ◌&&◌, not, Some};
ghost use Rattle.ppp_control.specs.Rules.{by_itself, goes_down};
ghost use Rattle.ppp_mark.specs.Log.{room_of};
ghost use Rattle.ppp_mark.specs.ScriptLog.{Grows};
ghost use Rattle.ppp_link_rules.specs.Sessions.{line_gone, line_gone_if, line_lost, with_line_ended};
ghost use Rattle.ppp_link_core.specs.Standing.{Does, IsCause, Lives, Sits, opened};
ghost use Rattle.ppp_link_steps.specs.Calm.{Calm};

use ppp_link_core::asks::LcpAsk;
use ppp_link_core::link_core::LinkCore;
use ppp_link_rules::cause::Cause;
use ppp_outside::Spawner;

// Whether a session lasts whose line hadn't ended.
fn is_lost(lasting: bool, ended: bool) -> bool
    ensures { result ≡ (lasting && not ended) }
{
    lasting && !ended
}

// The line has ended: nobody hears it.
#[tactic(auto, using(crate::proofs::LineFacts::ended_does))]
fn end_line<S: Spawner>(core: &mut LinkCore<S>)
    requires lives { Lives core.old }
    ensures does { Does with_line_ended core.old core.new }
    ensures rest { core.new ≡ record core.old { line_ended = core.new.line_ended; talk = core.new.talk } }
    ensures lives { Lives core.new }
{
    core.line_ended = true;
    core.talk.end();
}

// The line has ended: LCP gets Down, behind the mark of the cause, which then closes LCP.
#[tactic(auto, using(crate::proofs::LineFacts::gone_does, crate::proofs::LineFacts::sits_gone))]
fn take_end<S: Spawner>(core: &mut LinkCore<S>, cause: Cause)
    requires lives { Lives core.old }
    requires room { 18 ≤ room_of core.old.records.scripts.log }
    requires table { IsCause cause }
    requires sits { Sits (opened core.old.lcp) core.old }
    ensures does { Does (line_gone cause) core.old core.new }
    ensures sits { Sits (opened core.new.lcp) core.new }
    ensures grows { Grows 18 core.old.records.scripts.log core.new.records.scripts.log }
    ensures lives { Lives core.new }
{
    let first = core.is_busy();
    end_line(core);
    core.first_cause(Some(cause));
    core.call(LcpAsk::Down);
    core.close_if(first);
}

// The line has ended, if it had not.
#[tactic(auto, using(crate::proofs::LineFacts::gone_then, crate::proofs::LineFacts::gone_else))]
fn end_if<S: Spawner>(core: &mut LinkCore<S>, lost: bool, cause: Cause)
    requires lives { Lives core.old }
    requires room { 18 ≤ room_of core.old.records.scripts.log }
    requires table { IsCause cause }
    requires sits { Sits (opened core.old.lcp) core.old }
    ensures does { Does (line_gone_if lost cause) core.old core.new }
    ensures sits { Sits (opened core.new.lcp) core.new }
    ensures grows { Grows 18 core.old.records.scripts.log core.new.records.scripts.log }
    ensures lives { Lives core.new }
{
    if lost {
        take_end(core, cause);
    }
}

/// The session's line ends, where it hadn't.
#[tactic(auto, using(crate::proofs::LineFacts::lost_does, crate::proofs::LineFacts::lost_calm))]
pub fn lose_line<S: Spawner>(core: &mut LinkCore<S>, cause: Cause)
    requires lives { Lives core.old }
    requires room { 18 ≤ room_of core.old.records.scripts.log }
    requires table { IsCause cause }
    requires sits { Sits (opened core.old.lcp) core.old }
    ensures does { Does (line_lost cause) core.old core.new }
    ensures sits { Sits (opened core.new.lcp) core.new }
    ensures calm { Calm core.old → Calm core.new }
    ensures grows { Grows 18 core.old.records.scripts.log core.new.records.scripts.log }
    ensures lives { Lives core.new }
{
    let lasting = core.records.is_lasting();
    let lost = is_lost(lasting, core.line_ended);
    end_if(core, lost, cause);
}

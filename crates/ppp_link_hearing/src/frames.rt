// Frames come.
ghost use Rattle.std.specs.Prelude.{◌≡◌, ◌≤◌, length};
ghost use Rattle.ppp_mark.specs.Log.{room_of};
ghost use Rattle.ppp_mark.specs.ScriptLog.{Grows};
ghost use Rattle.ppp_base.specs.declared.octets.TheConstants.{MOST_FRAME};
ghost use Rattle.ppp_hdlc.specs.declared.heard.Heard.TheVariants as heard;
ghost use Rattle.ppp_link_rules.specs.Hearing.{frame_taken, heard_taken, treated};
ghost use Rattle.ppp_link_rules.specs.Phase.{ToTable};
ghost use Rattle.ppp_link_core.specs.Standing.{Does, Lives, Sits, opened};
ghost use Rattle.ppp_link_hearing.specs.Heard.{treatment_of};

use crate::way::{Way, way_of};
use ppp_hdlc::Heard;
use ppp_link_core::link_core::LinkCore;
use ppp_outside::Spawner;

// A frame waits for the table, or is dropped where it doesn't fit.
#[tactic(auto, using(crate::proofs::FrameFacts::posted_does, crate::proofs::FrameFacts::posted_lives))]
fn post_frame<S: Spawner>(core: &mut LinkCore<S>, protocol: u16, information: &[u8])
    requires lives { Lives core.old }
    requires small { length information.now ≤ MOST_FRAME }
    ensures does { Does (treated ToTable protocol information.now) core.old core.new }
    ensures rest { core.new ≡ record core.old { up = core.new.up } }
    ensures lives { Lives core.new }
{
    core.up.put_frame(protocol, information);
}

// A frame, as what it is looked at.
#[tactic(auto, using(crate::proofs::FrameFacts::to_lcp, crate::proofs::FrameFacts::to_auth, crate::proofs::FrameFacts::to_table, crate::proofs::FrameFacts::to_reject, crate::proofs::FrameFacts::discarded, crate::proofs::FrameFacts::sits_posted))]
fn treat<S: Spawner>(core: &mut LinkCore<S>, way: Way, protocol: u16, information: &[u8])
    requires lives { Lives core.old }
    requires room { 13 ≤ room_of core.old.records.scripts.log }
    requires small { length information.now ≤ MOST_FRAME }
    requires sits { Sits (opened core.old.lcp) core.old }
    ensures does { Does (treated (treatment_of way) protocol information.now) core.old core.new }
    ensures sits { Sits (opened core.new.lcp) core.new }
    ensures grows { Grows 13 core.old.records.scripts.log core.new.records.scripts.log }
    ensures lives { Lives core.new }
{
    match way {
        Way::Lcp => core.hear_lcp(information),
        Way::Auth => core.hear_phase(protocol, information),
        Way::Table => post_frame(core, protocol, information),
        Way::Rejected => core.reject(protocol, information),
        Way::Discarded => {}
    }
}

// A frame, by the phase and its protocol.
#[tactic(auto, using(crate::proofs::FrameFacts::frame_does))]
fn take_frame<S: Spawner>(core: &mut LinkCore<S>, protocol: u16, information: &[u8])
    requires lives { Lives core.old }
    requires room { 13 ≤ room_of core.old.records.scripts.log }
    requires small { length information.now ≤ MOST_FRAME }
    requires sits { Sits (opened core.old.lcp) core.old }
    ensures does { Does (frame_taken protocol information.now) core.old core.new }
    ensures sits { Sits (opened core.new.lcp) core.new }
    ensures grows { Grows 13 core.old.records.scripts.log core.new.records.scripts.log }
    ensures lives { Lives core.new }
{
    let open_now = core.is_open();
    let passed = core.has_passed();
    let agreed = core.agreed();
    let way = way_of(open_now, passed, &agreed, protocol);
    treat(core, way, protocol, information);
}

// A frame, and what stands behind each.
#[tactic(auto, using(crate::proofs::FrameFacts::followed_does))]
fn follow_frame<S: Spawner>(core: &mut LinkCore<S>, protocol: u16, information: &[u8])
    requires lives { Lives core.old }
    requires room { 19 ≤ room_of core.old.records.scripts.log }
    requires small { length information.now ≤ MOST_FRAME }
    requires sits { Sits (opened core.old.lcp) core.old }
    ensures does { Does (heard_taken (heard.Frame protocol information.now)) core.old core.new }
    ensures sits { Sits (opened core.new.lcp) core.new }
    ensures grows { Grows 19 core.old.records.scripts.log core.new.records.scripts.log }
    ensures lives { Lives core.new }
{
    take_frame(core, protocol, information);
    core.look_after();
}

/// What the answer of the deframer leads to.
#[tactic(auto, using(crate::proofs::FrameFacts::heard_frame, crate::proofs::FrameFacts::heard_fault, crate::proofs::FrameFacts::heard_nothing))]
pub(crate) fn take_heard<S: Spawner>(core: &mut LinkCore<S>, heard: &Heard)
    requires lives { Lives core.old }
    requires room { 19 ≤ room_of core.old.records.scripts.log }
    requires sits { Sits (opened core.old.lcp) core.old }
    ensures does { Does (heard_taken heard.now) core.old core.new }
    ensures sits { Sits (opened core.new.lcp) core.new }
    ensures grows { Grows 19 core.old.records.scripts.log core.new.records.scripts.log }
    ensures lives { Lives core.new }
{
    match heard {
        Heard::Nothing => {}
        Heard::Frame(protocol, information) => {
            follow_frame(core, *protocol, information.as_slice())
        }
        Heard::Dropped(_) => core.look_after(),
    }
}

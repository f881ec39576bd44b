//! The table's posts.

ghost use Rattle.std.specs.Prelude.{◌≡◌, ◌≤◌, Option, ℕ};
ghost use Rattle.ppp_mark.specs.Log.{room_of};
ghost use Rattle.ppp_mark.specs.ScriptLog.{Grows};
ghost use Rattle.ppp_link_parts.specs.Records.{told};
ghost use Rattle.ppp_link_rules.specs.Posts.{made_member, post_taken, rejected_in, sent_in};
ghost use Rattle.ppp_link_core.specs.Standing.{Does, Lives, Sits, opened};
ghost use Rattle.ppp_link_core.specs.Told.{closed_stay, refused_stay};
ghost use Rattle.ppp_link_steps.specs.Calm.{Calm};
ghost use Rattle.ppp_link_steps.specs.Posted.{rejected_now, sent_now};

use crate::dialling::{DialAsk, ask_dial};
use ppp_base::{CloseCause, Post, Refusal, Unit};
use ppp_link_core::link_core::LinkCore;
use ppp_outside::Spawner;

// The link is a member of a unit's bundle.
#[tactic(auto, using(crate::proofs::PostFacts::member_calm, crate::proofs::DialFacts::sits_behind))]
fn take_member<S: Spawner>(core: &mut LinkCore<S>, stay: u32, unit: Unit, live: bool)
    requires lives { Lives core.old }
    requires room { 2 ≤ room_of core.old.records.scripts.log }
    requires sits { Sits (opened core.old.lcp) core.old }
    requires calm { Calm core.old }
    ensures does { Does (made_member stay unit live) core.old core.new }
    ensures sits { Sits (opened core.new.lcp) core.new }
    ensures calm { Calm core.new }
    ensures grows { Grows 2 core.old.records.scripts.log core.new.records.scripts.log }
    ensures lives { Lives core.new }
{
    core.make_member(stay, unit, live);
}

// The link may not join.
#[tactic(auto, using(crate::proofs::PostFacts::refused_calm))]
fn take_refusal<S: Spawner>(core: &mut LinkCore<S>, stay: u32, reason: Refusal)
    requires lives { Lives core.old }
    requires room { 6 ≤ room_of core.old.records.scripts.log }
    requires sits { Sits (opened core.old.lcp) core.old }
    requires calm { Calm core.old }
    ensures does { Does (refused_stay stay reason) core.old core.new }
    ensures sits { Sits (opened core.new.lcp) core.new }
    ensures calm { Calm core.new }
    ensures grows { Grows 6 core.old.records.scripts.log core.new.records.scripts.log }
    ensures lives { Lives core.new }
{
    core.refuse_stay(stay, reason);
}

// The bundle ends the session.
#[tactic(auto, using(crate::proofs::PostFacts::closed_calm))]
fn take_close<S: Spawner>(
    core: &mut LinkCore<S>,
    stay: u32,
    unit: Unit,
    why: CloseCause,
    live: bool,
)
    requires lives { Lives core.old }
    requires room { 7 ≤ room_of core.old.records.scripts.log }
    requires sits { Sits (opened core.old.lcp) core.old }
    requires calm { Calm core.old }
    ensures does { Does (closed_stay stay unit why live) core.old core.new }
    ensures sits { Sits (opened core.new.lcp) core.new }
    ensures calm { Calm core.new }
    ensures grows { Grows 7 core.old.records.scripts.log core.new.records.scripts.log }
    ensures lives { Lives core.new }
{
    core.close_stay(stay, unit, why, live);
}

// What is to be sent in no stay is dropped.
#[tactic(auto, using(crate::proofs::PostFacts::sent_some, crate::proofs::PostFacts::sent_none, crate::proofs::PostFacts::sits_sent))]
fn send_in<S: Spawner>(core: &mut LinkCore<S>, stay: Option<u32>, protocol: u16, information: &[u8])
    requires lives { Lives core.old }
    requires sits { Sits (opened core.old.lcp) core.old }
    ensures does { Does (sent_in stay protocol information.now) core.old core.new }
    ensures sits { Sits (opened core.new.lcp) core.new }
    ensures records { core.new.records ≡ core.old.records }
    ensures lives { Lives core.new }
{
    if let Some(_) = stay {
        core.send(protocol, information);
    }
}

// The link is to send.
#[tactic(auto, using(crate::proofs::PostFacts::sent_does, crate::proofs::PostFacts::sent_calm))]
fn take_send<S: Spawner>(core: &mut LinkCore<S>, protocol: u16, information: &[u8])
    requires lives { Lives core.old }
    requires sits { Sits (opened core.old.lcp) core.old }
    requires calm { Calm core.old }
    ensures does { Does (sent_now protocol information.now) core.old core.new }
    ensures sits { Sits (opened core.new.lcp) core.new }
    ensures calm { Calm core.new }
    ensures records { core.new.records ≡ core.old.records }
    ensures lives { Lives core.new }
{
    let stay = core.records.stay();
    send_in(core, stay, protocol, information);
}

// What is to be rejected in no stay is dropped.
#[tactic(auto, using(crate::proofs::PostFacts::rejected_some, crate::proofs::PostFacts::rejected_none))]
fn reject_in<S: Spawner>(
    core: &mut LinkCore<S>,
    stay: Option<u32>,
    protocol: u16,
    information: &[u8],
)
    requires lives { Lives core.old }
    requires room { 13 ≤ room_of core.old.records.scripts.log }
    requires sits { Sits (opened core.old.lcp) core.old }
    ensures does { Does (rejected_in stay protocol information.now) core.old core.new }
    ensures sits { Sits (opened core.new.lcp) core.new }
    ensures grows { Grows 13 core.old.records.scripts.log core.new.records.scripts.log }
    ensures lives { Lives core.new }
{
    if let Some(_) = stay {
        core.reject(protocol, information);
    }
}

// The link is to reject a protocol.
#[tactic(auto, using(crate::proofs::PostFacts::rejected_does, crate::proofs::PostFacts::rejected_calm))]
fn take_reject<S: Spawner>(core: &mut LinkCore<S>, protocol: u16, information: &[u8])
    requires lives { Lives core.old }
    requires room { 13 ≤ room_of core.old.records.scripts.log }
    requires sits { Sits (opened core.old.lcp) core.old }
    requires calm { Calm core.old }
    ensures does { Does (rejected_now protocol information.now) core.old core.new }
    ensures sits { Sits (opened core.new.lcp) core.new }
    ensures calm { Calm core.new }
    ensures grows { Grows 13 core.old.records.scripts.log core.new.records.scripts.log }
    ensures lives { Lives core.new }
{
    let stay = core.records.stay();
    reject_in(core, stay, protocol, information);
}

/// A post of the table comes.
#[tactic(auto, using(crate::proofs::PostFacts::taken_member, crate::proofs::PostFacts::taken_refused, crate::proofs::PostFacts::taken_close, crate::proofs::PostFacts::taken_send, crate::proofs::PostFacts::taken_reject, crate::proofs::PostFacts::taken_wake))]
pub fn take_post<S: Spawner>(core: &mut LinkCore<S>, post: Post)
    requires lives { Lives core.old }
    requires room { 13 ≤ room_of core.old.records.scripts.log }
    requires sits { Sits (opened core.old.lcp) core.old }
    requires calm { Calm core.old }
    ensures does { Does (post_taken post) core.old core.new }
    ensures sits { Sits (opened core.new.lcp) core.new }
    ensures calm { Calm core.new }
    ensures grows { Grows 13 core.old.records.scripts.log core.new.records.scripts.log }
    ensures lives { Lives core.new }
{
    match post {
        Post::Member { stay, unit, live } => take_member(core, stay, unit, live),
        Post::Refused { stay, reason } => take_refusal(core, stay, reason),
        Post::Close {
            stay,
            unit,
            cause,
            elapsed_ms: _,
            live,
        } => take_close(core, stay, unit, cause, live),
        Post::Send {
            protocol,
            information,
        } => take_send(core, protocol, information.as_slice()),
        Post::Reject {
            protocol,
            information,
        } => take_reject(core, protocol, information.as_slice()),
        Post::Wake => ask_dial(core, DialAsk::Wake),
    }
}

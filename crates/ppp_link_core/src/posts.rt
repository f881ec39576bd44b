// What the table's posts of a stay do.
ghost use Rattle.std.specs.Prelude.{◌≡◌, ◌≤◌};
ghost use Rattle.ppp_mark.specs.Log.{room_of};
ghost use Rattle.ppp_mark.specs.ScriptLog.{Grows};
ghost use Rattle.ppp_link_rules.specs.Posts.{live_if, live_marked, made_member, member_if, member_marked};
ghost use Rattle.ppp_mark.specs.Marks.{close_detail};
ghost use Rattle.ppp_link_rules.specs.CauseStatus.{closed_by, join_refused};
ghost use Rattle.ppp_link_core.specs.Standing.{Does, IsCause, Lives, Sits, opened};
ghost use Rattle.ppp_link_core.specs.Told.{closed_stay, refusal_marked, refused_stay};

use crate::link_core::LinkCore;
use ppp_base::{CloseCause, Refusal, Unit};
use ppp_link_rules::cause::Cause;
use ppp_outside::Spawner;

impl<S: Spawner> LinkCore<S> {
    // The mark of the stay's member, if it is to be written.
    #[tactic(auto, using(crate::proofs::PostFacts::member_does, crate::proofs::PostFacts::no_member, crate::proofs::PostFacts::member_lives))]
    fn member_if(&mut self, new: bool, unit: Unit, stay: u32)
        requires lives { Lives self.old }
        requires room { 1 ≤ room_of self.old.records.scripts.log }
        ensures does { Does (member_if new unit stay) self.old self.new }
        ensures rest { self.new ≡ record self.old { records = self.new.records } }
        ensures grows { Grows 1 self.old.records.scripts.log self.new.records.scripts.log }
        ensures lives { Lives self.new }
    {
        if new {
            self.records.mark_member(unit, stay, self.time);
        }
    }

    // The mark of the stay's bundle being live, if it is to be written.
    #[tactic(auto, using(crate::proofs::PostFacts::live_does, crate::proofs::PostFacts::not_live, crate::proofs::PostFacts::live_lives))]
    fn live_if(&mut self, new: bool, unit: Unit, stay: u32)
        requires lives { Lives self.old }
        requires room { 1 ≤ room_of self.old.records.scripts.log }
        ensures does { Does (live_if new unit stay) self.old self.new }
        ensures rest { self.new ≡ record self.old { records = self.new.records } }
        ensures grows { Grows 1 self.old.records.scripts.log self.new.records.scripts.log }
        ensures lives { Lives self.new }
    {
        if new {
            self.records.mark_live(unit, stay, self.time);
        }
    }

    // The member is marked once in a stay.
    #[tactic(auto, using(crate::proofs::PostFacts::member_once))]
    fn mark_member(&mut self, unit: Unit, stay: u32)
        requires lives { Lives self.old }
        requires room { 1 ≤ room_of self.old.records.scripts.log }
        ensures does { Does (member_marked unit stay) self.old self.new }
        ensures rest { self.new ≡ record self.old { records = self.new.records } }
        ensures grows { Grows 1 self.old.records.scripts.log self.new.records.scripts.log }
        ensures lives { Lives self.new }
    {
        let new = self.records.unit().is_none();
        self.member_if(new, unit, stay);
    }

    // And so is its bundle's being live.
    #[tactic(auto, using(crate::proofs::PostFacts::live_once))]
    fn mark_live(&mut self, live: bool, unit: Unit, stay: u32)
        requires lives { Lives self.old }
        requires room { 1 ≤ room_of self.old.records.scripts.log }
        ensures does { Does (live_marked live unit stay) self.old self.new }
        ensures rest { self.new ≡ record self.old { records = self.new.records } }
        ensures grows { Grows 1 self.old.records.scripts.log self.new.records.scripts.log }
        ensures lives { Lives self.new }
    {
        let new = live && !self.records.is_live();
        self.live_if(new, unit, stay);
    }

    /// The link is a member of a unit's bundle, which is live or not.
    #[tactic(auto, using(crate::proofs::PostFacts::made_does))]
    pub fn make_member(&mut self, stay: u32, unit: Unit, live: bool)
        requires lives { Lives self.old }
        requires room { 2 ≤ room_of self.old.records.scripts.log }
        ensures does { Does (made_member stay unit live) self.old self.new }
        ensures rest { self.new ≡ record self.old { records = self.new.records } }
        ensures grows { Grows 2 self.old.records.scripts.log self.new.records.scripts.log }
        ensures lives { Lives self.new }
    {
        self.mark_member(unit, stay);
        self.mark_live(live, unit, stay);
    }

    // The mark of a Join that was refused.
    #[tactic(auto, using(crate::proofs::PostFacts::refusal_does, crate::proofs::PostFacts::refusal_lives))]
    fn mark_refused(&mut self, stay: u32, reason: Refusal)
        requires lives { Lives self.old }
        requires room { 1 ≤ room_of self.old.records.scripts.log }
        ensures does { Does (refusal_marked stay reason) self.old self.new }
        ensures rest { self.new ≡ record self.old { records = self.new.records } }
        ensures grows { Grows 1 self.old.records.scripts.log self.new.records.scripts.log }
        ensures lives { Lives self.new }
    {
        self.records.mark_refused(reason, stay, self.time);
    }

    /// The table refuses the link, which ends the session.
    #[tactic(auto, using(crate::proofs::PostFacts::refused_does, crate::proofs::PostFacts::sits_marked))]
    pub fn refuse_stay(&mut self, stay: u32, reason: Refusal)
        requires lives { Lives self.old }
        requires room { 6 ≤ room_of self.old.records.scripts.log }
        requires sits { Sits (opened self.old.lcp) self.old }
        ensures does { Does (refused_stay stay reason) self.old self.new }
        ensures sits { Sits (opened self.new.lcp) self.new }
        ensures grows { Grows 6 self.old.records.scripts.log self.new.records.scripts.log }
        ensures lives { Lives self.new }
    {
        self.mark_refused(stay, reason);
        self.end_by(refusal_cause(reason));
    }

    /// The bundle ends the session.
    #[tactic(auto, using(crate::proofs::PostFacts::closed_does, crate::proofs::PostFacts::sits_marked))]
    pub fn close_stay(&mut self, stay: u32, unit: Unit, why: CloseCause, live: bool)
        requires lives { Lives self.old }
        requires room { 7 ≤ room_of self.old.records.scripts.log }
        requires sits { Sits (opened self.old.lcp) self.old }
        ensures does { Does (closed_stay stay unit why live) self.old self.new }
        ensures sits { Sits (opened self.new.lcp) self.new }
        ensures grows { Grows 7 self.old.records.scripts.log self.new.records.scripts.log }
        ensures lives { Lives self.new }
    {
        self.make_member(stay, unit, live);
        self.end_by(close_cause(why));
    }
}

// Why a session ends whose Join was refused.
fn refusal_cause(reason: Refusal) -> Cause
    ensures cause { result ≡ join_refused reason }
    ensures table { IsCause result }
{
    Cause {
        number: 8,
        detail: u16::from(reason.number()),
    }
}

// Of a bundle's end, 1 where the peer ended it.
fn close_detail(why: CloseCause) -> u16
    ensures { result ≡ close_detail why }
{
    match why {
        CloseCause::EndedByPeer => 1,
        CloseCause::Idle | CloseCause::ConnectTime => 0,
        CloseCause::IpcpFailed | CloseCause::TooManyChanges => 0,
    }
}

// Why a session ends whose bundle was closed.
fn close_cause(why: CloseCause) -> Cause
    ensures cause { result ≡ closed_by why }
    ensures table { IsCause result }
{
    Cause {
        number: why.number(),
        detail: close_detail(why),
    }
}

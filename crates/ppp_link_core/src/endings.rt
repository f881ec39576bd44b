// How a session ends: the first cause is kept, the chat is given up, and LCP is closed.
ghost use Rattle.std.specs.Prelude.{◌≡◌, ◌≤◌, false, Some, None, is_some, IfSome};
ghost use Rattle.ppp_mark.specs.Log.{room_of};
ghost use Rattle.ppp_mark.specs.ScriptLog.{Grows};
ghost use Rattle.ppp_link_rules.specs.Ending.{auth_closed, caused, closed_if, closed_marked, ended_by, ended_if, first_caused, first_caused_by, lcp_closed, lcp_left, left_if, stay_left};
ghost use Rattle.ppp_link_parts.specs.Records.{told};
ghost use Rattle.ppp_link_core.specs.Standing.{Does, IsCause, Lives, Sits, opened};
ghost use Rattle.ppp_link_core.specs.Told.{closed_told};

use crate::asks::LcpAsk;
use crate::link_core::LinkCore;
use ppp_base::DEFAULT_MAP;
use ppp_lcp::LcpOut;
use ppp_link_rules::cause::Cause;
use ppp_outside::Spawner;

impl<S: Spawner> LinkCore<S> {
    // A cause and its mark; a chat that runs is given up.
    #[tactic(auto, using(crate::proofs::EndFacts::caused_does))]
    fn cause(&mut self, cause: Cause)
        requires lives { Lives self.old }
        requires room { 1 ≤ room_of self.old.records.scripts.log }
        requires table { IsCause cause }
        ensures does { Does (caused cause) self.old self.new }
        ensures rest { self.new ≡ record self.old { records = self.new.records; talk = self.new.talk } }
        ensures grows { Grows 1 self.old.records.scripts.log self.new.records.scripts.log }
        ensures lives { Lives self.new }
    {
        self.records.mark_cause(cause, self.time);
        self.talk.give_up();
    }

    // A cause, if there is one and it would be the session's first.
    #[tactic(auto, using(crate::proofs::EndFacts::none_caused, crate::proofs::EndFacts::not_caused, crate::proofs::EndFacts::first_is))]
    fn cause_by(&mut self, cause: Option<Cause>, first: bool)
        requires lives { Lives self.old }
        requires room { 1 ≤ room_of self.old.records.scripts.log }
        requires table { IfSome cause IsCause }
        ensures does { Does (first_caused_by cause first) self.old self.new }
        ensures rest { self.new ≡ record self.old { records = self.new.records; talk = self.new.talk } }
        ensures grows { Grows 1 self.old.records.scripts.log self.new.records.scripts.log }
        ensures lives { Lives self.new }
    {
        if let Some(cause) = cause {
            if first {
                self.cause(cause);
            }
        }
    }

    /// A cause, if there is one and it is the session's first.
    #[tactic(auto, using(crate::proofs::EndFacts::first_does))]
    pub fn first_cause(&mut self, cause: Option<Cause>)
        requires lives { Lives self.old }
        requires room { 1 ≤ room_of self.old.records.scripts.log }
        requires table { IfSome cause IsCause }
        ensures does { Does (first_caused cause) self.old self.new }
        ensures rest { self.new ≡ record self.old { records = self.new.records; talk = self.new.talk } }
        ensures grows { Grows 1 self.old.records.scripts.log self.new.records.scripts.log }
        ensures lives { Lives self.new }
    {
        let first = self.is_busy();
        self.cause_by(cause, first);
    }

    // The mark of LCP's leaving Opened, and the default map from the next octet on.
    #[tactic(auto, using(crate::proofs::EndFacts::marked_does, crate::proofs::EndFacts::marked_lives))]
    fn mark_closed(&mut self)
        requires lives { Lives self.old }
        requires room { 1 ≤ room_of self.old.records.scripts.log }
        ensures does { Does closed_marked self.old self.new }
        ensures rest { self.new ≡ record self.old { records = self.new.records; deframer = self.new.deframer } }
        ensures grows { Grows 1 self.old.records.scripts.log self.new.records.scripts.log }
        ensures lives { Lives self.new }
    {
        self.records.mark_lcp_closed(self.time);
        self.deframer.set_map(DEFAULT_MAP);
    }

    // What the peer had proved is over.
    #[tactic(auto, using(crate::proofs::EndFacts::auth_closed_does, crate::proofs::EndFacts::auth_closed_lives))]
    fn close_auth(&mut self)
        requires lives { Lives self.old }
        requires room { 2 ≤ room_of self.old.records.scripts.log }
        ensures does { Does auth_closed self.old self.new }
        ensures rest { self.new ≡ record self.old { records = self.new.records; auth = None } }
        ensures grows { Grows 2 self.old.records.scripts.log self.new.records.scripts.log }
        ensures lives { Lives self.new }
    {
        self.auth = None;
        self.records.close_scripts(self.time);
    }

    // A stay is over: its Leave is posted.
    #[tactic(auto, using(crate::proofs::EndFacts::left_does, crate::proofs::EndFacts::no_leave, crate::proofs::EndFacts::left_lives))]
    fn post_leave(&mut self, stay: u32)
        requires lives { Lives self.old }
        requires there { (told self.old.records).stay ≡ Some stay }
        requires room { 1 ≤ room_of self.old.records.scripts.log }
        ensures does { Does stay_left self.old self.new }
        ensures rest { self.new ≡ record self.old { records = self.new.records; up = self.new.up } }
        ensures grows { Grows 1 self.old.records.scripts.log self.new.records.scripts.log }
        ensures lives { Lives self.new }
    {
        self.records.mark_left(stay, self.time);
        self.up.put_leave(stay);
    }

    // The stay is over, if there is one.
    #[tactic(auto, using(crate::proofs::EndFacts::no_stay))]
    fn leave_stay(&mut self)
        requires lives { Lives self.old }
        requires room { 1 ≤ room_of self.old.records.scripts.log }
        ensures does { Does stay_left self.old self.new }
        ensures rest { self.new ≡ record self.old { records = self.new.records; up = self.new.up } }
        ensures grows { Grows 1 self.old.records.scripts.log self.new.records.scripts.log }
        ensures lives { Lives self.new }
    {
        if let Some(stay) = self.records.stay() {
            self.post_leave(stay);
        }
    }

    // LCP has left Opened: authentication and the stay end with it.
    #[tactic(auto, using(crate::proofs::EndFacts::lcp_left_does))]
    pub(crate) fn leave_lcp(&mut self)
        requires lives { Lives self.old }
        requires room { 4 ≤ room_of self.old.records.scripts.log }
        ensures does { Does lcp_left self.old self.new }
        ensures none { is_some self.new.auth ≡ false }
        ensures lcp { self.new.lcp ≡ self.old.lcp }
        ensures grows { Grows 4 self.old.records.scripts.log self.new.records.scripts.log }
        ensures lives { Lives self.new }
    {
        self.mark_closed();
        self.close_auth();
        self.leave_stay();
    }

    // LCP has left Opened, if it was in it.
    #[tactic(auto, using(crate::proofs::EndFacts::left_then, crate::proofs::EndFacts::left_else))]
    fn leave_if(&mut self, was_open: bool)
        requires lives { Lives self.old }
        requires room { 4 ≤ room_of self.old.records.scripts.log }
        requires sits { Sits was_open self.old }
        ensures does { Does (left_if was_open) self.old self.new }
        ensures none { is_some self.new.auth ≡ false }
        ensures lcp { self.new.lcp ≡ self.old.lcp }
        ensures grows { Grows 4 self.old.records.scripts.log self.new.records.scripts.log }
        ensures lives { Lives self.new }
    {
        if was_open {
            self.leave_lcp();
        }
    }

    // What LCP answers to Close.
    #[tactic(auto, using(crate::proofs::EndFacts::closed_some, crate::proofs::EndFacts::closed_none))]
    fn take_close(&mut self, was_open: bool, out: &Option<LcpOut>)
        requires lives { Lives self.old }
        requires room { 4 ≤ room_of self.old.records.scripts.log }
        requires sits { Sits was_open self.old }
        requires none { is_some out.now ≡ false → is_some self.old.auth ≡ false }
        ensures does { Does (closed_told was_open out.now) self.old self.new }
        ensures none { is_some self.new.auth ≡ false }
        ensures lcp { self.new.lcp ≡ self.old.lcp }
        ensures grows { Grows 4 self.old.records.scripts.log self.new.records.scripts.log }
        ensures lives { Lives self.new }
    {
        if let Some(out) = out {
            self.send_packets(&out.packets);
            self.leave_if(was_open);
        }
    }

    // LCP is closed.
    #[tactic(auto, using(crate::proofs::EndFacts::lcp_closed_does, crate::proofs::EndFacts::no_phase, crate::proofs::EndFacts::sits_behind))]
    pub(crate) fn close_lcp(&mut self)
        requires lives { Lives self.old }
        requires room { 4 ≤ room_of self.old.records.scripts.log }
        requires sits { Sits (opened self.old.lcp) self.old }
        ensures does { Does lcp_closed self.old self.new }
        ensures none { is_some self.new.auth ≡ false }
        ensures shut { opened self.new.lcp ≡ false }
        ensures grows { Grows 4 self.old.records.scripts.log self.new.records.scripts.log }
        ensures lives { Lives self.new }
    {
        let was_open = self.is_open();
        let out = self.ask(LcpAsk::Close);
        self.take_close(was_open, &out);
    }

    /// LCP is closed, if it is to be.
    #[tactic(auto, using(crate::proofs::EndFacts::closed_then, crate::proofs::EndFacts::closed_else, crate::proofs::EndFacts::sits_without))]
    pub fn close_if(&mut self, first: bool)
        requires lives { Lives self.old }
        requires room { 4 ≤ room_of self.old.records.scripts.log }
        requires sits { Sits (opened self.old.lcp) self.old }
        ensures does { Does (closed_if first) self.old self.new }
        ensures sits { Sits (opened self.new.lcp) self.new }
        ensures grows { Grows 4 self.old.records.scripts.log self.new.records.scripts.log }
        ensures lives { Lives self.new }
    {
        if first {
            self.close_lcp();
        }
    }

    // A cause ends the session, if it is its first.
    #[tactic(auto, using(crate::proofs::EndFacts::ended_then, crate::proofs::EndFacts::ended_else, crate::proofs::EndFacts::sits_without))]
    fn end_if(&mut self, busy: bool, cause: Cause)
        requires lives { Lives self.old }
        requires room { 5 ≤ room_of self.old.records.scripts.log }
        requires table { IsCause cause }
        requires sits { Sits (opened self.old.lcp) self.old }
        ensures does { Does (ended_if busy cause) self.old self.new }
        ensures sits { Sits (opened self.new.lcp) self.new }
        ensures grows { Grows 5 self.old.records.scripts.log self.new.records.scripts.log }
        ensures lives { Lives self.new }
    {
        if busy {
            self.cause(cause);
            self.close_lcp();
        }
    }

    /// A cause ends the session, unless it has one already, or there is none.
    #[tactic(auto, using(crate::proofs::EndFacts::ended_does))]
    pub fn end_by(&mut self, cause: Cause)
        requires lives { Lives self.old }
        requires room { 5 ≤ room_of self.old.records.scripts.log }
        requires table { IsCause cause }
        requires sits { Sits (opened self.old.lcp) self.old }
        ensures does { Does (ended_by cause) self.old self.new }
        ensures sits { Sits (opened self.new.lcp) self.new }
        ensures grows { Grows 5 self.old.records.scripts.log self.new.records.scripts.log }
        ensures lives { Lives self.new }
    {
        let busy = self.is_busy();
        self.end_if(busy, cause);
    }
}

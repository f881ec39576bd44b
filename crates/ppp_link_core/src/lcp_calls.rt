// What LCP's answers lead to.
ghost use Rattle.std.specs.Prelude.{◌≡◌, ◌==◌, ◌≤◌, ◌&&◌, true, false, is_some, IfSome};
ghost use Rattle.ppp_control.specs.Rules.{hears};
ghost use Rattle.ppp_mark.specs.Log.{room_of};
ghost use Rattle.ppp_mark.specs.ScriptLog.{Grows};
ghost use Rattle.ppp_packet.specs.PacketOf.{packet_in};
ghost use Rattle.ppp_link_rules.specs.LcpCalls.{answered, followed, followed_by, lcp_called, lcp_entered, lcp_heard, open_marked, protocol_rejected};
ghost use Rattle.ppp_link_core.specs.Standing.{Does, IsCause, Lives, Sits, opened};
ghost use Rattle.ppp_link_core.specs.Told.{answered_told, call_of};

use crate::asks::LcpAsk;
use crate::causes::cause_of;
use crate::link_core::LinkCore;
use crate::readers::OPENED;
use ppp_lcp::LcpOut;
use ppp_link_rules::cause::Cause;
use ppp_outside::Spawner;
use ppp_packet::Packet;

// Whether there is a cause, and it would be the session's first.
fn is_first(cause: &Option<Cause>, busy: bool) -> bool
    ensures { result ≡ (is_some cause.now && busy) }
{
    cause.is_some() && busy
}

impl<S: Spawner> LinkCore<S> {
    // The mark of LCP's coming to Opened, and the agreed map from the next octet on.
    #[tactic(auto, using(crate::proofs::CallFacts::marked_does, crate::proofs::CallFacts::marked_lives))]
    fn mark_opened(&mut self)
        requires lives { Lives self.old }
        requires room { 1 ≤ room_of self.old.records.scripts.log }
        ensures does { Does open_marked self.old self.new }
        ensures rest { self.new ≡ record self.old { records = self.new.records; deframer = self.new.deframer } }
        ensures grows { Grows 1 self.old.records.scripts.log self.new.records.scripts.log }
        ensures lives { Lives self.new }
    {
        let map = self.map();
        self.records.mark_lcp_open(self.time);
        self.deframer.set_map(map);
    }

    // LCP has entered Opened: authentication begins.
    #[tactic(auto, using(crate::proofs::CallFacts::entered_does))]
    fn enter_lcp(&mut self)
        requires lives { Lives self.old }
        requires room { 8 ≤ room_of self.old.records.scripts.log }
        requires none { is_some self.old.auth ≡ false }
        requires opened { opened self.old.lcp ≡ true }
        ensures does { Does lcp_entered self.old self.new }
        ensures sits { Sits (opened self.new.lcp) self.new }
        ensures grows { Grows 8 self.old.records.scripts.log self.new.records.scripts.log }
        ensures lives { Lives self.new }
    {
        self.mark_opened();
        self.begin_phase();
    }

    // What follows from Opened, by whether LCP was in it and is now.
    #[tactic(auto, using(crate::proofs::CallFacts::followed_enter, crate::proofs::CallFacts::followed_leave, crate::proofs::CallFacts::followed_out, crate::proofs::CallFacts::followed_in, crate::proofs::CallFacts::sits_open, crate::proofs::EndFacts::sits_without))]
    fn follow_by(&mut self, was_open: bool, is_open: bool)
        requires lives { Lives self.old }
        requires room { 8 ≤ room_of self.old.records.scripts.log }
        requires sits { Sits was_open self.old }
        requires now { is_open ≡ opened self.old.lcp }
        ensures does { Does (followed_by was_open is_open) self.old self.new }
        ensures sits { Sits (opened self.new.lcp) self.new }
        ensures grows { Grows 8 self.old.records.scripts.log self.new.records.scripts.log }
        ensures lives { Lives self.new }
    {
        if was_open {
            if !is_open {
                self.leave_lcp();
            }
        } else if is_open {
            self.enter_lcp();
        }
    }

    // What follows from Opened.
    #[tactic(auto, using(crate::proofs::CallFacts::followed_does))]
    fn follow(&mut self, was_open: bool)
        requires lives { Lives self.old }
        requires room { 8 ≤ room_of self.old.records.scripts.log }
        requires sits { Sits was_open self.old }
        ensures does { Does (followed was_open) self.old self.new }
        ensures sits { Sits (opened self.new.lcp) self.new }
        ensures grows { Grows 8 self.old.records.scripts.log self.new.records.scripts.log }
        ensures lives { Lives self.new }
    {
        let is_open = self.is_open();
        self.follow_by(was_open, is_open);
    }

    // The mark of the first cause, the packets, what follows from Opened, and the Close that the cause calls for.
    #[tactic(auto, using(crate::proofs::CallFacts::answered_does, crate::proofs::CallFacts::sits_same))]
    fn take_answer(&mut self, was_open: bool, cause: Option<Cause>, out: &LcpOut)
        requires lives { Lives self.old }
        requires room { 13 ≤ room_of self.old.records.scripts.log }
        requires table { IfSome cause IsCause }
        requires sits { Sits was_open self.old }
        ensures does { Does (answered was_open cause out.now) self.old self.new }
        ensures sits { Sits (opened self.new.lcp) self.new }
        ensures grows { Grows 13 self.old.records.scripts.log self.new.records.scripts.log }
        ensures lives { Lives self.new }
    {
        let busy = self.is_busy();
        let first = is_first(&cause, busy);
        self.first_cause(cause);
        self.send_packets(&out.packets);
        self.follow(was_open);
        self.close_if(first);
    }

    // What LCP answers, by its state before.
    #[tactic(auto, using(crate::proofs::CallFacts::told_some, crate::proofs::CallFacts::told_none, crate::proofs::CallFacts::sits_none))]
    fn take_told(&mut self, state: u8, out: &Option<LcpOut>)
        requires lives { Lives self.old }
        requires room { 13 ≤ room_of self.old.records.scripts.log }
        requires sits { Sits (state == 9) self.old }
        requires none { is_some out.now ≡ false → Sits (opened self.old.lcp) self.old }
        ensures does { Does (answered_told state out.now) self.old self.new }
        ensures sits { Sits (opened self.new.lcp) self.new }
        ensures grows { Grows 13 self.old.records.scripts.log self.new.records.scripts.log }
        ensures lives { Lives self.new }
    {
        if let Some(out) = out {
            let cause = cause_of(state, out);
            self.take_answer(state == OPENED, cause, out);
        }
    }

    /// LCP is asked by the link itself.
    #[tactic(auto, using(crate::proofs::CallFacts::called_does, crate::proofs::CallFacts::sits_asked, crate::proofs::CallFacts::sits_back))]
    pub fn call(&mut self, call: LcpAsk)
        requires lives { Lives self.old }
        requires room { 13 ≤ room_of self.old.records.scripts.log }
        requires sits { Sits (opened self.old.lcp) self.old }
        ensures does { Does (lcp_called (call_of call)) self.old self.new }
        ensures sits { Sits (opened self.new.lcp) self.new }
        ensures grows { Grows 13 self.old.records.scripts.log self.new.records.scripts.log }
        ensures lives { Lives self.new }
    {
        let state = self.state();
        let out = self.ask(call);
        self.take_told(state, &out);
    }

    // LCP hears a packet.
    #[tactic(auto, using(crate::proofs::CallFacts::called_does, crate::proofs::CallFacts::sits_asked, crate::proofs::CallFacts::sits_back))]
    fn hear(&mut self, packet: &Packet)
        requires lives { Lives self.old }
        requires room { 13 ≤ room_of self.old.records.scripts.log }
        requires sits { Sits (opened self.old.lcp) self.old }
        ensures does { Does (lcp_called (hears packet.now tt)) self.old self.new }
        ensures sits { Sits (opened self.new.lcp) self.new }
        ensures grows { Grows 13 self.old.records.scripts.log self.new.records.scripts.log }
        ensures lives { Lives self.new }
    {
        let state = self.state();
        let out = self.ask_heard(packet);
        self.take_told(state, &out);
    }

    /// A packet of LCP comes; a malformed one is discarded.
    #[tactic(auto, using(crate::proofs::CallFacts::heard_some, crate::proofs::CallFacts::heard_none))]
    pub fn hear_lcp(&mut self, information: &[u8])
        requires lives { Lives self.old }
        requires room { 13 ≤ room_of self.old.records.scripts.log }
        requires sits { Sits (opened self.old.lcp) self.old }
        ensures does { Does (lcp_heard (packet_in information.now)) self.old self.new }
        ensures sits { Sits (opened self.new.lcp) self.new }
        ensures grows { Grows 13 self.old.records.scripts.log self.new.records.scripts.log }
        ensures lives { Lives self.new }
    {
        if let Ok(packet) = Packet::read(information) {
            self.hear(&packet);
        }
    }

    /// A protocol of the peer's is rejected.
    #[tactic(auto, using(crate::proofs::CallFacts::rejected_does, crate::proofs::CallFacts::sits_asked, crate::proofs::CallFacts::sits_back))]
    pub fn reject(&mut self, protocol: u16, information: &[u8])
        requires lives { Lives self.old }
        requires room { 13 ≤ room_of self.old.records.scripts.log }
        requires sits { Sits (opened self.old.lcp) self.old }
        ensures does { Does (protocol_rejected protocol information.now) self.old self.new }
        ensures sits { Sits (opened self.new.lcp) self.new }
        ensures grows { Grows 13 self.old.records.scripts.log self.new.records.scripts.log }
        ensures lives { Lives self.new }
    {
        let state = self.state();
        let out = self.ask_reject(protocol, information);
        self.take_told(state, &out);
    }
}

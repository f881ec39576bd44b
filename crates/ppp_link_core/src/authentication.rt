// The phase of authentication: it begins as LCP enters Opened, and tells when the peer has passed, and who failed.
ghost use Rattle.std.specs.Prelude.{◌≡◌, ◌≤◌, true, false, None, Some, is_some, IfSome};
ghost use Rattle.ppp_auth.specs.Setting.{starts, takes, waits};
ghost use Rattle.ppp_hooks.specs.HookPast.{open_in};
ghost use Rattle.ppp_mark.specs.Log.{room_of};
ghost use Rattle.ppp_mark.specs.ScriptLog.{Grows};
ghost use Rattle.ppp_mark.specs.Scripts.{said_in};
ghost use Rattle.ppp_packet.specs.PacketOf.{packet_in};
ghost use Rattle.ppp_link_rules.specs.Authentication.{auth_opened, ended_by_outcome, new_phase, opened_for, phase_begun, phase_begun_by, phase_called, phase_heard, phase_told};
ghost use Rattle.ppp_link_rules.specs.LinkState.{LinkState};
ghost use Rattle.ppp_link_core.specs.Standing.{Does, Lives, Named, Sits, StandsFor, opened};
ghost use Rattle.ppp_link_core.specs.Told.{phase_answer, phase_asked, phase_followed};

use crate::arguments::script_args;
use crate::link_core::LinkCore;
use ppp_auth::{AuthNow, AuthPhase, PhaseOut};
use ppp_base::{Name, RandomWords};
use ppp_link_rules::auth_config;
use ppp_link_rules::cause::Cause;
use ppp_outside::Spawner;
use ppp_packet::{Agreed, Packet};

impl<S: Spawner> LinkCore<S> {
    // The phase begins.
    #[tactic(auto, using(crate::proofs::AuthFacts::asked_does, crate::proofs::AuthFacts::asked_told, crate::proofs::AuthFacts::named_by, crate::proofs::AuthFacts::closed_by, crate::proofs::AuthFacts::lives_asked, crate::proofs::AuthFacts::none_does, crate::proofs::AuthFacts::none_told, crate::proofs::AskFacts::moment_of))]
    fn ask_start(&mut self) -> Option<PhaseOut>
        requires lives { Lives self.old }
        ensures does { Does (phase_asked (starts self.old.secrets)) self.old self.new }
        ensures answer { (s : LinkState) → StandsFor self.old s → result ≡ phase_answer (starts self.old.secrets) s }
        ensures rest { self.new ≡ record self.old { auth = self.new.auth } }
        ensures there { is_some self.new.auth ≡ is_some self.old.auth }
        ensures named { IfSome result (λ out. is_some out.peer_passed ≡ true → Named self.new.auth) }
        ensures closed { IfSome result (λ out. is_some out.peer_passed ≡ true → open_in (said_in self.new.records.scripts.log.past) ≡ None) }
        ensures lives { Lives self.new }
    {
        let time = self.time;
        match &mut self.auth {
            Some(phase) => Some(phase.begin(time, &self.secrets)),
            None => None,
        }
    }

    // It hears a packet.
    #[tactic(auto, using(crate::proofs::AuthFacts::asked_does, crate::proofs::AuthFacts::asked_told, crate::proofs::AuthFacts::named_by, crate::proofs::AuthFacts::closed_by, crate::proofs::AuthFacts::lives_asked, crate::proofs::AuthFacts::none_does, crate::proofs::AuthFacts::none_told))]
    fn ask_packet(&mut self, protocol: u16, packet: &Packet) -> Option<PhaseOut>
        requires lives { Lives self.old }
        ensures does { Does (phase_asked (takes protocol packet.now self.old.secrets)) self.old self.new }
        ensures answer { (s : LinkState) → StandsFor self.old s → result ≡ phase_answer (takes protocol packet.now self.old.secrets) s }
        ensures rest { self.new ≡ record self.old { auth = self.new.auth } }
        ensures there { is_some self.new.auth ≡ is_some self.old.auth }
        ensures named { IfSome result (λ out. is_some out.peer_passed ≡ true → Named self.new.auth) }
        ensures closed { IfSome result (λ out. is_some out.peer_passed ≡ true → open_in (said_in self.new.records.scripts.log.past) ≡ None) }
        ensures lives { Lives self.new }
    {
        let time = self.time;
        match &mut self.auth {
            Some(phase) => Some(phase.heard(protocol, packet, time, &self.secrets)),
            None => None,
        }
    }

    // It looks at the time.
    #[tactic(auto, using(crate::proofs::AuthFacts::asked_does, crate::proofs::AuthFacts::asked_told, crate::proofs::AuthFacts::named_by, crate::proofs::AuthFacts::closed_by, crate::proofs::AuthFacts::lives_asked, crate::proofs::AuthFacts::none_does, crate::proofs::AuthFacts::none_told, crate::proofs::AskFacts::moment_of))]
    fn ask_tick(&mut self) -> Option<PhaseOut>
        requires lives { Lives self.old }
        ensures does { Does (phase_asked waits) self.old self.new }
        ensures answer { (s : LinkState) → StandsFor self.old s → result ≡ phase_answer waits s }
        ensures rest { self.new ≡ record self.old { auth = self.new.auth } }
        ensures there { is_some self.new.auth ≡ is_some self.old.auth }
        ensures named { IfSome result (λ out. is_some out.peer_passed ≡ true → Named self.new.auth) }
        ensures closed { IfSome result (λ out. is_some out.peer_passed ≡ true → open_in (said_in self.new.records.scripts.log.past) ≡ None) }
        ensures lives { Lives self.new }
    {
        let time = self.time;
        match &mut self.auth {
            Some(phase) => Some(phase.tick(time)),
            None => None,
        }
    }

    // The peer has passed under this name: authentication opens.
    #[tactic(auto, using(crate::proofs::AuthFacts::opened_does))]
    fn open_auth(&mut self, peer: &Name)
        requires lives { Lives self.old }
        requires room { 2 ≤ room_of self.old.records.scripts.log }
        requires named { Named self.old.auth }
        requires closed { open_in (said_in self.old.records.scripts.log.past) ≡ None }
        ensures does { Does (auth_opened peer.now) self.old self.new }
        ensures rest { self.new ≡ record self.old { records = self.new.records } }
        ensures grows { Grows 2 self.old.records.scripts.log self.new.records.scripts.log }
    {
        let args = script_args(self.id, &self.config, peer);
        self.records.open_scripts(args, self.time);
    }

    // Authentication opens, if the peer has passed.
    #[tactic(auto, using(crate::proofs::AuthFacts::opened_some, crate::proofs::AuthFacts::opened_none))]
    fn open_for(&mut self, peer: &Option<Name>)
        requires lives { Lives self.old }
        requires room { 2 ≤ room_of self.old.records.scripts.log }
        requires named { is_some peer.now ≡ true → Named self.old.auth }
        requires closed { is_some peer.now ≡ true → open_in (said_in self.old.records.scripts.log.past) ≡ None }
        ensures does { Does (opened_for peer.now) self.old self.new }
        ensures rest { self.new ≡ record self.old { records = self.new.records } }
        ensures grows { Grows 2 self.old.records.scripts.log self.new.records.scripts.log }
        ensures lives { Lives self.new }
    {
        if let Some(peer) = peer {
            self.open_auth(peer);
        }
    }

    // Who failed ends the session.
    #[tactic(auto, using(crate::proofs::AuthFacts::outcome_peer, crate::proofs::AuthFacts::outcome_ours, crate::proofs::AuthFacts::outcome_going, crate::proofs::AuthFacts::outcome_passed))]
    fn end_by_outcome(&mut self, now: AuthNow)
        requires lives { Lives self.old }
        requires room { 5 ≤ room_of self.old.records.scripts.log }
        requires sits { Sits (opened self.old.lcp) self.old }
        ensures does { Does (ended_by_outcome now) self.old self.new }
        ensures sits { Sits (opened self.new.lcp) self.new }
        ensures grows { Grows 5 self.old.records.scripts.log self.new.records.scripts.log }
        ensures lives { Lives self.new }
    {
        match now {
            AuthNow::Going => {}
            AuthNow::Passed { peer: _, allow: _ } => {}
            AuthNow::PeerFailed => self.end_by(Cause {
                number: 6,
                detail: 0,
            }),
            AuthNow::WeFailed => self.end_by(Cause {
                number: 7,
                detail: 0,
            }),
        }
    }

    // What the phase answers: its packets go out, the peer's passing opens authentication, and who failed ends the session.
    #[tactic(auto, using(crate::proofs::AuthFacts::told_does, crate::proofs::AuthFacts::sits_on, crate::proofs::AuthFacts::named_on, crate::proofs::AuthFacts::closed_on))]
    fn take_phase(&mut self, out: &PhaseOut, now: AuthNow)
        requires lives { Lives self.old }
        requires room { 7 ≤ room_of self.old.records.scripts.log }
        requires named { is_some out.now.peer_passed ≡ true → Named self.old.auth }
        requires closed { is_some out.now.peer_passed ≡ true → open_in (said_in self.old.records.scripts.log.past) ≡ None }
        requires sits { Sits (opened self.old.lcp) self.old }
        ensures does { Does (phase_told out.now now) self.old self.new }
        ensures sits { Sits (opened self.new.lcp) self.new }
        ensures grows { Grows 7 self.old.records.scripts.log self.new.records.scripts.log }
        ensures lives { Lives self.new }
    {
        self.send_phase(&out.packets);
        self.open_for(&out.peer_passed);
        self.end_by_outcome(now);
    }

    // What the phase answers, where there is one.
    #[tactic(auto, using(crate::proofs::AuthFacts::followed_some, crate::proofs::AuthFacts::followed_none))]
    fn follow_phase(&mut self, out: &Option<PhaseOut>)
        requires lives { Lives self.old }
        requires room { 7 ≤ room_of self.old.records.scripts.log }
        requires named { IfSome out.now (λ o. is_some o.peer_passed ≡ true → Named self.old.auth) }
        requires closed { IfSome out.now (λ o. is_some o.peer_passed ≡ true → open_in (said_in self.old.records.scripts.log.past) ≡ None) }
        requires sits { Sits (opened self.old.lcp) self.old }
        ensures does { Does (phase_followed out.now) self.old self.new }
        ensures sits { Sits (opened self.new.lcp) self.new }
        ensures grows { Grows 7 self.old.records.scripts.log self.new.records.scripts.log }
        ensures lives { Lives self.new }
    {
        if let Some(out) = out {
            let now = self.outcome();
            self.take_phase(out, now);
        }
    }

    /// The phase looks at the time.
    #[tactic(auto, using(crate::proofs::AuthFacts::called_does, crate::proofs::AuthFacts::sits_with))]
    pub fn tick_phase(&mut self)
        requires lives { Lives self.old }
        requires room { 7 ≤ room_of self.old.records.scripts.log }
        requires sits { Sits (opened self.old.lcp) self.old }
        ensures does { Does (phase_called waits) self.old self.new }
        ensures sits { Sits (opened self.new.lcp) self.new }
        ensures grows { Grows 7 self.old.records.scripts.log self.new.records.scripts.log }
        ensures lives { Lives self.new }
    {
        let out = self.ask_tick();
        self.follow_phase(&out);
    }

    // The phase hears a packet.
    #[tactic(auto, using(crate::proofs::AuthFacts::called_does, crate::proofs::AuthFacts::sits_with))]
    fn hear_packet(&mut self, protocol: u16, packet: &Packet)
        requires lives { Lives self.old }
        requires room { 7 ≤ room_of self.old.records.scripts.log }
        requires sits { Sits (opened self.old.lcp) self.old }
        ensures does { Does (phase_called (takes protocol packet.now self.old.secrets)) self.old self.new }
        ensures sits { Sits (opened self.new.lcp) self.new }
        ensures grows { Grows 7 self.old.records.scripts.log self.new.records.scripts.log }
        ensures lives { Lives self.new }
    {
        let out = self.ask_packet(protocol, packet);
        self.follow_phase(&out);
    }

    /// A packet of authentication comes; a malformed one is discarded.
    #[tactic(auto, using(crate::proofs::AuthFacts::heard_some, crate::proofs::AuthFacts::heard_none))]
    pub fn hear_phase(&mut self, protocol: u16, information: &[u8])
        requires lives { Lives self.old }
        requires room { 7 ≤ room_of self.old.records.scripts.log }
        requires sits { Sits (opened self.old.lcp) self.old }
        ensures does { Does (phase_heard protocol (packet_in information.now)) self.old self.new }
        ensures sits { Sits (opened self.new.lcp) self.new }
        ensures grows { Grows 7 self.old.records.scripts.log self.new.records.scripts.log }
        ensures lives { Lives self.new }
    {
        if let Ok(packet) = Packet::read(information) {
            self.hear_packet(protocol, &packet);
        }
    }

    // A phase by what both ends agreed on, which hasn't begun.
    #[tactic(auto, using(crate::proofs::AuthFacts::new_does, crate::proofs::AuthFacts::new_lives))]
    fn make_phase(&mut self, terms: &Agreed)
        requires lives { Lives self.old }
        requires none { is_some self.old.auth ≡ false }
        ensures does { Does (new_phase terms.now) self.old self.new }
        ensures rest { self.new ≡ record self.old { auth = self.new.auth; words = self.new.words } }
        ensures lives { Lives self.new }
    {
        let mut words = RandomWords::new(self.words);
        let challenge = words.challenge();
        self.words = words.state();
        self.auth = Some(AuthPhase::new(terms, auth_config(&self.config), challenge));
    }

    // The phase begins, by what both ends agreed on.
    #[tactic(auto, using(crate::proofs::AuthFacts::begun_some, crate::proofs::AuthFacts::sits_opened))]
    fn begin_by(&mut self, terms: &Agreed)
        requires lives { Lives self.old }
        requires room { 7 ≤ room_of self.old.records.scripts.log }
        requires none { is_some self.old.auth ≡ false }
        requires now { opened self.old.lcp ≡ true }
        ensures does { Does (phase_begun_by (Some terms.now)) self.old self.new }
        ensures sits { Sits (opened self.new.lcp) self.new }
        ensures grows { Grows 7 self.old.records.scripts.log self.new.records.scripts.log }
        ensures lives { Lives self.new }
    {
        self.make_phase(terms);
        let out = self.ask_start();
        self.follow_phase(&out);
    }

    /// LCP has entered Opened: the phase begins.
    #[tactic(auto, using(crate::proofs::AuthFacts::begun_then, crate::proofs::AuthFacts::begun_else, crate::proofs::EndFacts::sits_without))]
    pub(crate) fn begin_phase(&mut self)
        requires lives { Lives self.old }
        requires room { 7 ≤ room_of self.old.records.scripts.log }
        requires none { is_some self.old.auth ≡ false }
        requires now { opened self.old.lcp ≡ true }
        ensures does { Does phase_begun self.old self.new }
        ensures sits { Sits (opened self.new.lcp) self.new }
        ensures grows { Grows 7 self.old.records.scripts.log self.new.records.scripts.log }
        ensures lives { Lives self.new }
    {
        if let Some(terms) = self.agreed() {
            self.begin_by(&terms);
        }
    }
}

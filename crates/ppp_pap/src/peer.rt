ghost use Rattle.std.specs.Prelude.{◌≡◌, ◌≤◌, ◌^◌, [], ◌∷◌, List, IfSome};
ghost use Rattle.ppp_packet.specs.declared.auth_out.AuthOutcome.TheVariants.{Waiting};
ghost use Rattle.ppp_proving.specs.Calls.{Answered, AuthCall, begins, hears, ticks, answered, turned};
ghost use Rattle.ppp_proving.specs.Resending.{sendings_of};
ghost use Rattle.ppp_pap.specs.Packets.{request_packet};
ghost use Rattle.ppp_pap.specs.Peer.{StandsFor, answer_says};

use crate::packets::{AUTHENTICATE_ACK, AUTHENTICATE_NAK, is_answer, our_request};
use ppp_base::Name;
use ppp_packet::{AuthOut, AuthOutcome, Packet};
use ppp_proving::{Again, MOST_SENT, Resending, copied};
use ppp_secrets::Secrets;
use std::marker::Model;

/// Proves who we are, by PAP.
#[derive(Debug, Drop)]
pub struct PapPeer {
    name: Name,
    password: Name,
    own: Resending,
    outcome: AuthOutcome,
}

impl Model for PapPeer {
    ghost use Rattle.ppp_pap.specs.Peer.{PeerState};

    ghost Value = { PeerState };

    ghost view = { λ peer. record { name = peer.name; password = peer.password; own = peer.own; outcome = peer.outcome } };
}

impl PapPeer {
    /// We prove that we are the one of this name, by this password.
    pub fn new(name: Name, password: Name) -> PapPeer
        ensures new { result ≡ record { name = name; password = password; own = sendings_of []; outcome = Waiting } }
        ensures stands { StandsFor result [] }
    {
        PapPeer {
            name,
            password,
            own: Resending::new(),
            outcome: AuthOutcome::Waiting,
        }
    }

    /// The authentication begins: the request goes out. A second beginning sends nothing.
    pub fn begin(&mut self, now: u64) -> AuthOut
        requires { now ≤ 2 ^ 56 }
        ensures kept { (self.new.name ≡ self.old.name) × (self.new.password ≡ self.old.password) }
        ensures stands { (past : List Answered) → StandsFor self.old past → StandsFor self.new (answered now begins result ∷ past) }
    {
        let mut packet = None;
        if !self.own.is_begun() {
            self.own.sends(now);
            packet = Some(our_request(&self.name, &self.password));
        }
        self.says(packet)
    }

    /// A packet of PAP came. An answer counts where our request was sent, its identifier is 1 and its message fills it. A Nak counts
    /// after an Ack too. The secrets and the server's name are not looked at: the password is known.
    pub fn heard(
        &mut self,
        packet: &Packet,
        _now: u64,
        _secrets: &Secrets,
        _server: &Name,
    ) -> AuthOut
        ensures kept { (self.new.name ≡ self.old.name) × (self.new.password ≡ self.old.password) }
        ensures stands { (past : List Answered) → StandsFor self.old past
            → StandsFor self.new (answered _now (hears packet.now (record { lines = _secrets.now; server = _server.now })) result ∷ past) }
    {
        if self.own.is_begun() {
            self.take(packet);
        }
        self.says(None)
    }

    /// Time has passed: the request goes out again every 3 seconds, ten times in all, and is then given up.
    pub fn tick(&mut self, now: u64) -> AuthOut
        requires { now ≤ 2 ^ 56 }
        ensures kept { (self.new.name ≡ self.old.name) × (self.new.password ≡ self.old.password) }
        ensures stands { (past : List Answered) → StandsFor self.old past → StandsFor self.new (answered now ticks result ∷ past) }
    {
        let mut packet = None;
        if matches!(self.outcome, AuthOutcome::Waiting) {
            match self.own.again(now) {
                Again::Nothing => {}
                Again::Send => {
                    self.own.sends(now);
                    packet = Some(our_request(&self.name, &self.password));
                }
                Again::GiveUp => self.outcome = AuthOutcome::Unanswered(MOST_SENT),
            }
        }
        self.says(packet)
    }

    /// How it stands.
    pub fn outcome(&self) -> &AuthOutcome
        ensures { result.now ≡ self.now.outcome }
    {
        &self.outcome
    }

    // What an answer to our request says.
    fn take(&mut self, packet: &Packet)
        ensures { self.new ≡ record self.old { outcome = turned self.old.outcome (answer_says self.old.name packet.now) } }
    {
        if is_answer(AUTHENTICATE_ACK, packet) {
            if matches!(self.outcome, AuthOutcome::Waiting) {
                self.outcome = AuthOutcome::Passed(self.name.copy(), 0);
            }
        } else if is_answer(AUTHENTICATE_NAK, packet)
            && matches!(self.outcome, AuthOutcome::Waiting | AuthOutcome::Passed(..))
        {
            self.outcome = AuthOutcome::Refused(self.name.copy());
        }
    }

    // What a call answers.
    fn says(&self, packet: Option<Packet>) -> AuthOut
        ensures { result ≡ record { packet = packet; outcome = self.now.outcome } }
    {
        AuthOut {
            packet,
            outcome: copied(&self.outcome),
        }
    }
}

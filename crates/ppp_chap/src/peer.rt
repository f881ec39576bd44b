ghost use Rattle.std.specs.Prelude.{◌≡◌, [], ◌∷◌, List, Some, None, option_map};
ghost use Rattle.std.specs.Option.{option_copied};
ghost use Rattle.ppp_packet.specs.declared.auth_out.AuthOutcome.TheVariants.{Waiting, Refused};
ghost use Rattle.ppp_proving.specs.Calls.{Answered, begins, hears, ticks, answered, turned};
ghost use Rattle.ppp_chap.specs.Packets.{valued_of};
ghost use Rattle.ppp_chap.specs.Passes.{value_of};
ghost use Rattle.ppp_chap.specs.Peer.{StandsFor, answered_by, is_id, no_secret, response_to, secret_for, server_of, packet_says, sends};

use crate::packets::{CHALLENGE, FAILURE, SUCCESS, chap_value, read_valued, response};
use ppp_base::Name;
use ppp_packet::{AuthOut, AuthOutcome, Packet};
use ppp_proving::copied;
use ppp_secrets::Secrets;
use std::marker::Model;

/// Proves who we are, by CHAP.
#[derive(Debug, Drop)]
pub struct ChapPeer {
    name: Name,
    password: Option<Name>,
    answered: Option<u8>,
    outcome: AuthOutcome,
}

impl Model for ChapPeer {
    ghost use Rattle.ppp_chap.specs.Peer.{PeerState};

    ghost Value = { PeerState };

    ghost view = { λ peer. record { name = peer.name; password = peer.password; answered = peer.answered; outcome = peer.outcome } };
}

impl ChapPeer {
    /// We prove that we are the one of this name, by this password, or where there is none by the secret of the line for us and the server.
    pub fn new(name: Name, password: Option<Name>) -> ChapPeer
        ensures new { result ≡ record { name = name; password = password; answered = None; outcome = Waiting } }
        ensures stands { StandsFor result [] }
    {
        ChapPeer {
            name,
            password,
            answered: None,
            outcome: AuthOutcome::Waiting,
        }
    }

    /// The authentication begins: the peer is to send its challenge.
    pub fn begin(&mut self, _now: u64) -> AuthOut
        ensures kept { self.new ≡ self.old }
        ensures stands { (past : List Answered) → StandsFor self.old past → StandsFor self.new (answered _now begins result ∷ past) }
    {
        self.says(None)
    }

    /// A packet of CHAP came. Each challenge is answered, at any time; where there is no secret we have failed. `server` is the peer's name,
    /// and where it is empty that in the challenge. A Success and a Failure count where they answer the last challenge that was
    /// answered, and a Failure after a Success too.
    pub fn heard(&mut self, packet: &Packet, _now: u64, secrets: &Secrets, server: &Name) -> AuthOut
        ensures kept { (self.new.name ≡ self.old.name) × (self.new.password ≡ self.old.password) }
        ensures stands { (past : List Answered) → StandsFor self.old past
            → StandsFor self.new (answered _now (hears packet.now (record { lines = secrets.now; server = server.now })) result ∷ past) }
    {
        let sent = self.take(packet, secrets, server);
        self.says(sent)
    }

    /// Time has passed, which changes nothing here: the peer sends, and whoever owns the phase ends it.
    pub fn tick(&mut self, _now: u64) -> AuthOut
        ensures kept { self.new ≡ self.old }
        ensures stands { (past : List Answered) → StandsFor self.old past → StandsFor self.new (answered _now ticks result ∷ past) }
    {
        self.says(None)
    }

    /// How it stands.
    pub fn outcome(&self) -> &AuthOutcome
        ensures { result.now ≡ self.now.outcome }
    {
        &self.outcome
    }

    // What a packet says, and the response to it.
    fn take(&mut self, packet: &Packet, secrets: &Secrets, server: &Name) -> Option<Packet>
        ensures sent { result ≡ sends self.old.name self.old.password (hears packet.now (record { lines = secrets.now; server = server.now })) }
        ensures outcome { self.new ≡ record self.old {
          answered = answered_by result self.old.answered;
          outcome = turned self.old.outcome (packet_says self.old.name self.old.password self.old.answered packet.now (record { lines = secrets.now; server = server.now }));
        } }
    {
        if packet.code == CHALLENGE {
            return self.respond(packet, secrets, server);
        }
        if packet.code == SUCCESS && self.answers(packet.id) {
            if matches!(self.outcome, AuthOutcome::Waiting) {
                self.outcome = AuthOutcome::Passed(self.name.copy(), 0);
            }
        } else if packet.code == FAILURE && self.answers(packet.id) {
            self.fail();
        }
        None
    }

    // Answers a challenge.
    fn respond(&mut self, packet: &Packet, secrets: &Secrets, server: &Name) -> Option<Packet>
        ensures sent { result ≡ response_to self.old.name self.old.password (record { lines = secrets.now; server = server.now }) packet.now.id (valued_of packet.now.body) }
        ensures outcome { self.new ≡ record self.old {
          answered = answered_by result self.old.answered;
          outcome = turned self.old.outcome (no_secret self.old.name self.old.password (record { lines = secrets.now; server = server.now }) (valued_of packet.now.body));
        } }
    {
        let challenge = read_valued(packet.body.as_slice())?;
        match self.value(packet.id, challenge.value, &challenge.name, secrets, server) {
            Some(value) => {
                self.answered = Some(packet.id);
                Some(response(packet.id, &value, &self.name))
            }
            None => {
                self.fail();
                None
            }
        }
    }

    // What a call answers.
    fn says(&self, packet: Option<Packet>) -> AuthOut
        ensures { result ≡ record { packet = packet; outcome = self.now.outcome } }
    {
        AuthOut {
            packet,
            outcome: copied(&self.outcome),
        }
    }

    // The value that answers a challenge, where there is a secret.
    fn value(
        &self,
        id: u8,
        challenge: &[u8],
        challenger: &Name,
        secrets: &Secrets,
        server: &Name,
    ) -> Option<[u8; 16]>
        ensures { result ≡ option_map (λ secret. value_of id secret challenge.now) (secret_for self.now.password self.now.name (record { lines = secrets.now; server = server.now }) challenger.now) }
    {
        if let Some(password) = &self.password {
            return Some(chap_value(id, password.as_slice(), challenge));
        }
        let line = secrets.lookup(&self.name, named(server, challenger))?;
        let secret = secrets.secret(line)?;
        Some(chap_value(id, secret.as_slice(), challenge))
    }

    // Whether this is the identifier of the last challenge that was answered.
    fn answers(&self, id: u8) -> bool
        ensures { result ≡ is_id self.now.answered id }
    {
        match self.answered {
            Some(answered) => answered == id,
            None => false,
        }
    }

    // We were refused, unless something else was said that stays.
    fn fail(&mut self)
        ensures { self.new ≡ record self.old { outcome = turned self.old.outcome (Refused self.old.name) } }
    {
        if matches!(self.outcome, AuthOutcome::Waiting | AuthOutcome::Passed(..)) {
            self.outcome = AuthOutcome::Refused(self.name.copy());
        }
    }
}

// The server's name, or where it is empty the challenger's.
fn named<'a>(server: &'a Name, challenger: &'a Name) -> &'a Name
    ensures { result.now ≡ server_of server.now challenger.now }
{
    if server.is_empty() {
        challenger
    } else {
        server
    }
}

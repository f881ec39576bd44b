ghost use Rattle.std.specs.Prelude.{◌≡◌, [], ◌∷◌, List, Some, None, is_some, if◌then◌else◌};
ghost use Rattle.ppp_packet.specs.declared.auth_out.AuthOutcome.TheVariants.{Waiting};
ghost use Rattle.ppp_proving.specs.Calls.{Answered, AuthCall, begins, hears, ticks, answered, first_of};
ghost use Rattle.ppp_pap.specs.Passes.{passing_line};
ghost use Rattle.ppp_pap.specs.Judge.{StandsFor, judged, request_in, verdict_packet};

use crate::packets::{
    AUTHENTICATE_ACK, AUTHENTICATE_NAK, AUTHENTICATE_REQUEST, Request, answer, read_request,
};
use ppp_base::Name;
use ppp_packet::{AuthOut, AuthOutcome, Packet};
use ppp_proving::copied;
use ppp_secrets::Secrets;
use std::marker::Model;

/// Looks who the peer is, by PAP. Contracts see how it stands.
#[derive(Debug, Drop)]
pub struct PapJudge {
    outcome: AuthOutcome,
}

impl Model for PapJudge {
    ghost use Rattle.ppp_packet.specs.declared.auth_out.AuthOutcome.{AuthOutcome};

    ghost Value = { AuthOutcome };

    ghost view = { λ judge. judge.outcome };
}

impl PapJudge {
    /// Nothing is known yet.
    pub fn new() -> PapJudge
        ensures new { result ≡ Waiting }
        ensures stands { StandsFor result [] }
    {
        PapJudge {
            outcome: AuthOutcome::Waiting,
        }
    }

    /// The authentication begins: the peer is to send its request.
    pub fn begin(&mut self, _now: u64) -> AuthOut
        ensures kept { self.new ≡ self.old }
        ensures stands { (past : List Answered) → StandsFor self.old past → StandsFor self.new (answered _now begins result ∷ past) }
    {
        AuthOut {
            packet: None,
            outcome: copied(&self.outcome),
        }
    }

    /// A packet of PAP came. `server` is our name. What is no request, or whose fields don't fill it exactly, is discarded.
    pub fn heard(&mut self, packet: &Packet, _now: u64, secrets: &Secrets, server: &Name) -> AuthOut
        ensures stands { (past : List Answered) → StandsFor self.old past
            → StandsFor self.new (answered _now (hears packet.now (record { lines = secrets.now; server = server.now })) result ∷ past) }
    {
        let sent = self.take(packet, secrets, server);
        AuthOut {
            packet: sent,
            outcome: copied(&self.outcome),
        }
    }

    /// Time has passed, which changes nothing here: the peer sends, and whoever owns the phase ends it.
    pub fn tick(&mut self, _now: u64) -> AuthOut
        ensures kept { self.new ≡ self.old }
        ensures stands { (past : List Answered) → StandsFor self.old past → StandsFor self.new (answered _now ticks result ∷ past) }
    {
        AuthOut {
            packet: None,
            outcome: copied(&self.outcome),
        }
    }

    /// How it stands.
    pub fn outcome(&self) -> &AuthOutcome
        ensures { result.now ≡ self.now }
    {
        &self.outcome
    }

    // What a packet says, where nothing was said before, and the answer to it.
    fn take(&mut self, packet: &Packet, secrets: &Secrets, server: &Name) -> Option<Packet>
        ensures outcome { self.new ≡ first_of self.old (judged (record { lines = secrets.now; server = server.now }) (request_in packet.now)) }
        ensures packet { result ≡ (if is_some (request_in packet.now) then verdict_packet self.new packet.now.id else None) }
    {
        if packet.code != AUTHENTICATE_REQUEST {
            return None;
        }
        let request = read_request(packet.body.as_slice())?;
        if matches!(self.outcome, AuthOutcome::Waiting) {
            self.outcome = judged(request, secrets, server);
        }
        verdict(&self.outcome, packet.id)
    }
}

// What a request says of the one who sends it.
fn judged(request: Request<'_>, secrets: &Secrets, server: &Name) -> AuthOutcome
    ensures { result ≡ judged (record { lines = secrets.now; server = server.now }) (Some (request.entry.name, request.entry.password.now)) }
{
    match passing_line(&request.name, request.password, secrets, server) {
        Some(line) => AuthOutcome::Passed(request.name, line),
        None => AuthOutcome::Refused(request.name),
    }
}

// The line by which the sender of a request passes.
fn passing_line(name: &Name, password: &[u8], secrets: &Secrets, server: &Name) -> Option<u32>
    ensures { result ≡ passing_line (record { lines = secrets.now; server = server.now }) name.now password.now }
{
    let line = secrets.lookup(name, server)?;
    let secret = secrets.secret(line)?;
    if secret.is_empty() || secret.as_slice() == password {
        Some(line)
    } else {
        None
    }
}

// The answer to a request.
fn verdict(outcome: &AuthOutcome, id: u8) -> Option<Packet>
    ensures { result ≡ verdict_packet outcome.now id }
{
    match outcome {
        AuthOutcome::Passed(..) => Some(answer(AUTHENTICATE_ACK, id)),
        AuthOutcome::Refused(_) => Some(answer(AUTHENTICATE_NAK, id)),
        _ => None,
    }
}

ghost use Rattle.std.specs.Prelude.{◌≡◌, ◌≤◌, ◌^◌, [], ◌∷◌, List, Some, None, is_some, option_map, if◌then◌else◌};
ghost use Rattle.ppp_packet.specs.declared.auth_out.AuthOutcome.TheVariants.{Waiting};
ghost use Rattle.ppp_proving.specs.Calls.{Answered, begins, hears, ticks, answered, first_of};
ghost use Rattle.ppp_proving.specs.Resending.{sendings_of};
ghost use Rattle.ppp_chap.specs.Judge.{StandsFor, judged, response_in, verdict_packet};
ghost use Rattle.ppp_chap.specs.Passes.{passing_line};

use crate::packets::{
    FAILURE, OUR_ID, RESPONSE, SUCCESS, Valued, challenge, chap_value, read_valued, told,
};
use ppp_base::Name;
use ppp_packet::{AuthOut, AuthOutcome, Packet};
use ppp_proving::{Again, MOST_SENT, Resending, copied};
use ppp_secrets::Secrets;
use std::marker::Model;

/// Looks who the peer is, by CHAP.
#[derive(Debug, Drop)]
pub struct ChapJudge {
    name: Name,
    challenge: [u8; 16],
    own: Resending,
    outcome: AuthOutcome,
}

impl Model for ChapJudge {
    ghost use Rattle.ppp_chap.specs.Judge.{JudgeState};

    ghost Value = { JudgeState };

    ghost view = { λ judge. record { name = judge.name; challenge = judge.challenge; own = judge.own; outcome = judge.outcome } };
}

impl ChapJudge {
    /// We ask under this name, with this challenge.
    pub fn new(name: Name, challenge: [u8; 16]) -> ChapJudge
        ensures new { result ≡ record { name = name; challenge = challenge; own = sendings_of []; outcome = Waiting } }
        ensures stands { StandsFor result [] }
    {
        ChapJudge {
            name,
            challenge,
            own: Resending::new(),
            outcome: AuthOutcome::Waiting,
        }
    }

    /// The authentication begins: the challenge goes out. A second beginning sends nothing.
    pub fn begin(&mut self, now: u64) -> AuthOut
        requires { now ≤ 2 ^ 56 }
        ensures kept { (self.new.name ≡ self.old.name) × (self.new.challenge ≡ self.old.challenge) }
        ensures stands { (past : List Answered) → StandsFor self.old past → StandsFor self.new (answered now begins result ∷ past) }
    {
        let mut packet = None;
        if !self.own.is_begun() {
            self.own.sends(now);
            packet = Some(challenge(&self.challenge, &self.name));
        }
        self.says(packet)
    }

    /// A packet of CHAP came. `server` is our name. A response counts where our challenge was sent and its identifier is 1; after an
    /// outcome each gets the same answer, and none after `Unanswered`. One whose size goes past it, or whose name is above 255 octets, is
    /// discarded.
    pub fn heard(&mut self, packet: &Packet, _now: u64, secrets: &Secrets, server: &Name) -> AuthOut
        ensures kept { (self.new.name ≡ self.old.name) × (self.new.challenge ≡ self.old.challenge) }
        ensures stands { (past : List Answered) → StandsFor self.old past
            → StandsFor self.new (answered _now (hears packet.now (record { lines = secrets.now; server = server.now })) result ∷ past) }
    {
        if self.own.is_begun() {
            self.take(packet, secrets, server);
        }
        self.says(self.answer(packet))
    }

    /// Time has passed: the challenge goes out again every 3 seconds, ten times in all, and is then given up.
    pub fn tick(&mut self, now: u64) -> AuthOut
        requires { now ≤ 2 ^ 56 }
        ensures kept { (self.new.name ≡ self.old.name) × (self.new.challenge ≡ self.old.challenge) }
        ensures stands { (past : List Answered) → StandsFor self.old past → StandsFor self.new (answered now ticks result ∷ past) }
    {
        let mut packet = None;
        if matches!(self.outcome, AuthOutcome::Waiting) {
            match self.own.again(now) {
                Again::Nothing => {}
                Again::Send => {
                    self.own.sends(now);
                    packet = Some(challenge(&self.challenge, &self.name));
                }
                Again::GiveUp => self.outcome = AuthOutcome::Unanswered(MOST_SENT),
            }
        }
        self.says(packet)
    }

    /// How it stands.
    pub fn outcome(&self) -> &AuthOutcome
        ensures { result.now ≡ self.now.outcome }
    {
        &self.outcome
    }

    // What a response says, where nothing was said before.
    fn take(&mut self, packet: &Packet, secrets: &Secrets, server: &Name)
        ensures { self.new ≡ record self.old { outcome = first_of self.old.outcome (judged self.old.challenge (record { lines = secrets.now; server = server.now }) (response_in packet.now)) } }
    {
        if let Some(response) = response_in(packet)
            && matches!(self.outcome, AuthOutcome::Waiting)
        {
            self.outcome = judged(&self.challenge, response, secrets, server);
        }
    }

    // The answer to a response.
    fn answer(&self, packet: &Packet) -> Option<Packet>
        ensures { result ≡ (if is_some (response_in packet.now) then verdict_packet self.now.outcome else None) }
    {
        let _response = response_in(packet)?;
        verdict(&self.outcome)
    }

    // What a call answers.
    fn says(&self, packet: Option<Packet>) -> AuthOut
        ensures { result ≡ record { packet = packet; outcome = self.now.outcome } }
    {
        AuthOut {
            packet,
            outcome: copied(&self.outcome),
        }
    }
}

// The value and the name of a response to our challenge.
fn response_in(packet: &Packet) -> Option<Valued<'_>>
    ensures { option_map (λ valued. (valued.value.now, valued.name)) result ≡ response_in packet.now }
{
    if packet.code != RESPONSE || packet.id != OUR_ID {
        return None;
    }
    read_valued(packet.body.as_slice())
}

// What a response says of the one who sends it.
fn judged(
    challenge: &[u8; 16],
    response: Valued<'_>,
    secrets: &Secrets,
    server: &Name,
) -> AuthOutcome
    ensures { result ≡ judged challenge.now (record { lines = secrets.now; server = server.now }) (Some (response.entry.value.now, response.entry.name)) }
{
    match passing_line(challenge, &response.name, response.value, secrets, server) {
        Some(line) => AuthOutcome::Passed(response.name, line),
        None => AuthOutcome::Refused(response.name),
    }
}

// The line by which the sender of a response passes.
fn passing_line(
    challenge: &[u8; 16],
    name: &Name,
    value: &[u8],
    secrets: &Secrets,
    server: &Name,
) -> Option<u32>
    ensures { result ≡ passing_line (record { lines = secrets.now; server = server.now }) challenge.now name.now value.now }
{
    let line = secrets.lookup(name, server)?;
    let secret = secrets.secret(line)?;
    let right = chap_value(OUR_ID, secret.as_slice(), challenge);
    if value == right.as_slice() {
        Some(line)
    } else {
        None
    }
}

// The answer to a response.
fn verdict(outcome: &AuthOutcome) -> Option<Packet>
    ensures { result ≡ verdict_packet outcome.now }
{
    match outcome {
        AuthOutcome::Passed(..) => Some(told(SUCCESS, OUR_ID)),
        AuthOutcome::Refused(_) => Some(told(FAILURE, OUR_ID)),
        _ => None,
    }
}

ghost use Rattle.std.specs.Prelude.{◌++◌, ◌≡◌, ◌≤◌, ◌^◌, Some, List, [], ◌∷◌};
ghost use Rattle.ppp_auth.specs.Judged.{JudgeStands};
ghost use Rattle.ppp_auth.specs.Outcome.{outcome_in, peer_passed};
ghost use Rattle.ppp_auth.specs.Phase.{StandsFor, setting_of, told_at, newly, sent_by};
ghost use Rattle.ppp_auth.specs.Proved.{ProverStands};
ghost use Rattle.ppp_auth.specs.Setting.{PhaseAt, starts, takes, waits, begun_at, earlier, is_late, protocol_of};

use crate::config::AuthConfig;
use crate::judging::JudgePart;
use crate::out::{PhaseOut, PhasePacket, PhasePackets};
use crate::outcome::{AuthNow, Side};
use crate::proving::{ProverPart, server};
use ppp_base::{Name, protocol};
use ppp_chap::{ChapJudge, ChapPeer};
use ppp_packet::{Agreed, Method, Packet};
use ppp_pap::PapJudge;
use ppp_secrets::SecretsPair;
use std::mem;

/// Milliseconds from the beginning of a phase after which what still waits has failed.
pub const PHASE_MS: u64 = 60_000;

/// The phase of authentication of one link.
#[derive(Drop)]
pub struct AuthPhase {
    peer_proves: Option<Method>,
    we_prove: Option<Method>,
    config: AuthConfig,
    challenge: [u8; 16],
    judge: JudgePart,
    prover: ProverPart,
    began: Option<u64>,
    outcome: AuthNow,
}

impl AuthPhase {
    /// A phase that has not begun, of what both ends agreed on. The challenge is for the peer, where it proves itself by CHAP.
    pub fn new(agreed: &Agreed, config: AuthConfig, challenge: [u8; 16]) -> AuthPhase
        ensures methods { (result.peer_proves ≡ agreed.now.peer_proves) × (result.we_prove ≡ agreed.now.we_prove) }
        ensures config { (result.config ≡ config) × (result.challenge ≡ challenge) }
        ensures stands { StandsFor result [] }
    {
        let judge = match agreed.peer_proves {
            None => JudgePart::NotNeeded,
            Some(Method::Pap) => JudgePart::Pap(PapJudge::new()),
            Some(Method::Chap) => JudgePart::Chap(ChapJudge::new(config.name.copy(), challenge)),
        };
        let prover = match agreed.we_prove {
            None => ProverPart::NotNeeded,
            Some(Method::Pap) => ProverPart::Unbegun,
            Some(Method::Chap) => ProverPart::Chap(ChapPeer::new(
                config.user.copy(),
                copied_name(&config.password),
            )),
        };
        AuthPhase {
            peer_proves: agreed.peer_proves,
            we_prove: agreed.we_prove,
            config,
            challenge,
            judge,
            prover,
            began: None,
            outcome: AuthNow::Going,
        }
    }
}

// The same name again, if there is one.
fn copied_name(name: &Option<Name>) -> Option<Name>
    ensures { result ≡ name.now }
{
    match name {
        Some(name) => Some(name.copy()),
        None => None,
    }
}

impl AuthPhase {
    /// LCP has opened: the sides begin, and the 60 seconds. `secrets` are those at this moment.
    pub fn begin(&mut self, now: u64, secrets: &SecretsPair) -> PhaseOut
        requires { now ≤ 2 ^ 56 }
        ensures stands { (past : List PhaseAt) → StandsFor self.old past → StandsFor self.new (record { now = now; call = starts secrets.now } ∷ past) }
        ensures told { (past : List PhaseAt) → StandsFor self.old past → result ≡ told_at (setting_of self.old) (record { now = now; call = starts secrets.now }) past }
        ensures kept { setting_of self.new ≡ setting_of self.old }
    {
        self.began = first(self.began, now);
        let before = self.judge.side();
        let judged = self.judge.begin(now);
        let proved = self.prover.begin(now, secrets, &self.config);
        self.settle();
        self.tells(before, judged, proved)
    }

    /// A packet of this protocol came. Before the beginning, and where the ends didn't agree on the protocol, it is discarded.
    pub fn heard(
        &mut self,
        protocol: u16,
        packet: &Packet,
        now: u64,
        secrets: &SecretsPair,
    ) -> PhaseOut
        ensures stands { (past : List PhaseAt) → StandsFor self.old past → StandsFor self.new (record { now = now; call = takes protocol packet.now secrets.now } ∷ past) }
        ensures told { (past : List PhaseAt) → StandsFor self.old past → result ≡ told_at (setting_of self.old) (record { now = now; call = takes protocol packet.now secrets.now }) past }
        ensures kept { setting_of self.new ≡ setting_of self.old }
    {
        if self.began.is_none() {
            return PhaseOut::nothing();
        }
        let before = self.judge.side();
        let judged = self
            .judge
            .heard(protocol, packet, now, secrets, &self.config.name);
        let server = server(&self.config);
        let proved = self.prover.heard(protocol, packet, now, secrets, &server);
        self.settle();
        self.tells(before, judged, proved)
    }

    /// Time has passed: what is not answered is sent again, and a side that still waits 60 seconds after the beginning has failed: from then on it
    /// neither sends nor passes. Before the beginning nothing happens.
    pub fn tick(&mut self, now: u64) -> PhaseOut
        requires { now ≤ 2 ^ 56 }
        ensures stands { (past : List PhaseAt) → StandsFor self.old past → StandsFor self.new (record { now = now; call = waits } ∷ past) }
        ensures told { (past : List PhaseAt) → StandsFor self.old past → result ≡ told_at (setting_of self.old) (record { now = now; call = waits }) past }
        ensures kept { setting_of self.new ≡ setting_of self.old }
    {
        let Some(began) = self.began else {
            return PhaseOut::nothing();
        };
        let late = is_late(began, now);
        let before = self.judge.side();
        let judged = self.judge.tick(now, late);
        let proved = self.prover.tick(now, late);
        self.settle();
        self.tells(before, judged, proved)
    }

    /// How the phase stands.
    pub fn outcome(&self) -> AuthNow
        ensures value { result ≡ self.now.outcome }
        ensures of_calls { (past : List PhaseAt) → StandsFor self.now past → result ≡ outcome_in (setting_of self.now) past }
    {
        self.outcome.copy()
    }

    // How the sides stand, and with them the phase.
    fn settle(&mut self)
        ensures kept { self.new ≡ record self.old { outcome = self.new.outcome } }
        ensures outcome { (c : PhaseAt) (past : List PhaseAt)
            → JudgeStands (setting_of self.old) self.old.judge (c ∷ past) → ProverStands (setting_of self.old) self.old.prover (c ∷ past)
            → self.old.began ≡ begun_at (c ∷ past) → self.old.outcome ≡ outcome_in (setting_of self.old) past
            → self.new.outcome ≡ outcome_in (setting_of self.old) (c ∷ past) }
    {
        let mut said = AuthNow::Going;
        if self.began.is_some() {
            said = AuthNow::whole(self.judge.passed(), self.judge.side(), self.prover.side());
        }
        let was = mem::replace(&mut self.outcome, AuthNow::Going);
        self.outcome = was.later(said);
    }

    // What is answered to a call before which the peer's side stood like this.
    fn tells(&self, before: Side, judged: Option<Packet>, proved: Option<Packet>) -> PhaseOut
        ensures packets { result.packets ≡ sent_by self.now.peer_proves judged ++ sent_by self.now.we_prove proved }
        ensures peer_passed { (past : List PhaseAt) → JudgeStands (setting_of self.now) self.now.judge past
            → result.peer_passed ≡ newly before (peer_passed self.now.peer_proves (setting_of self.now) past) }
    {
        let mut packets = PhasePackets::new();
        if let (Some(method), Some(packet)) = (self.peer_proves, judged) {
            packets.push(sent(method, packet));
        }
        if let (Some(method), Some(packet)) = (self.we_prove, proved) {
            packets.push(sent(method, packet));
        }
        let peer_passed = match before {
            Side::Going => self.judge.passed().peer(),
            Side::Done | Side::Lost => None,
        };
        PhaseOut {
            packets,
            peer_passed,
        }
    }
}

// Whether a call at which time passes comes late: 60 seconds or more after the beginning.
fn is_late(began: u64, now: u64) -> bool
    requires { now ≤ 2 ^ 56 }
    ensures { result ≡ is_late waits (Some began) now }
{
    PHASE_MS <= now && began <= now - PHASE_MS
}

// The moment at which a phase began that began at this one or begins now.
fn first(began: Option<u64>, now: u64) -> Option<u64>
    ensures { result ≡ earlier began (Some now) }
{
    match began {
        Some(moment) => Some(moment),
        None => Some(now),
    }
}

// A packet with the protocol of its method.
fn sent(method: Method, packet: Packet) -> PhasePacket
    ensures { result ≡ record { protocol = protocol_of method; packet = packet } }
{
    let protocol = match method {
        Method::Pap => protocol::PAP,
        Method::Chap => protocol::CHAP,
    };
    PhasePacket { protocol, packet }
}

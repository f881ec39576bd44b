ghost use Rattle.std.specs.Prelude.{◌≡◌, ◌≤◌, ◌^◌, true, false, Some, None, is_some, List};
ghost use Rattle.ppp_packet.specs.declared.agreed.Method.TheVariants.{Pap, Chap};
ghost use Rattle.ppp_secrets.specs.declared.secrets.SecretsPair.{SecretsPair};
ghost use Rattle.ppp_auth.specs.Judged.{JudgeStands, JudgeAnswers, peer_side};
ghost use Rattle.ppp_auth.specs.Outcome.{passed_by, peer_passed};
ghost use Rattle.ppp_auth.specs.Setting.{Setting, PhaseAt, starts, takes, waits, begun_at, is_late};

use crate::outcome::{AuthNow, Side};
use ppp_base::{Allow, Name, protocol};
use ppp_chap::ChapJudge;
use ppp_packet::{AuthOutcome, Packet};
use ppp_pap::PapJudge;
use ppp_secrets::SecretsPair;

// Who judges the peer.
#[derive(Debug, Drop)]
pub(crate) enum JudgePart {
    // It need not prove itself.
    NotNeeded,
    // The 60 seconds passed while it waited.
    Lost,
    Pap(PapJudge),
    Chap(ChapJudge),
}

impl JudgePart {
    pub(crate) fn begin(&mut self, now: u64) -> Option<Packet>
        requires { now ≤ 2 ^ 56 }
        ensures { (s : Setting) (past : List PhaseAt) (pair : SecretsPair) → JudgeStands s self.old past → JudgeAnswers s self.new (record { now = now; call = starts pair }) past result }
    {
        match self {
            JudgePart::NotNeeded | JudgePart::Lost => None,
            JudgePart::Pap(judge) => judge.begin(now).packet,
            JudgePart::Chap(judge) => judge.begin(now).packet,
        }
    }

    pub(crate) fn heard(
        &mut self,
        protocol: u16,
        packet: &Packet,
        now: u64,
        secrets: &SecretsPair,
        name: &Name,
    ) -> Option<Packet>
        ensures { (s : Setting) (past : List PhaseAt) → s.config.name ≡ name.now → is_some (begun_at past) ≡ true → JudgeStands s self.old past
            → JudgeAnswers s self.new (record { now = now; call = takes protocol packet.now secrets.now }) past result }
    {
        match self {
            JudgePart::NotNeeded | JudgePart::Lost => None,
            JudgePart::Pap(judge) => {
                if protocol != protocol::PAP {
                    return None;
                }
                judge.heard(packet, now, &secrets.pap, name).packet
            }
            JudgePart::Chap(judge) => {
                if protocol != protocol::CHAP {
                    return None;
                }
                judge.heard(packet, now, &secrets.chap, name).packet
            }
        }
    }

    // Time passes: late, 60 seconds or more after the beginning, whoever still waits is lost.
    pub(crate) fn tick(&mut self, now: u64, late: bool) -> Option<Packet>
        requires { now ≤ 2 ^ 56 }
        ensures { (s : Setting) (past : List PhaseAt) → late ≡ is_late waits (begun_at past) now → is_some (begun_at past) ≡ true → JudgeStands s self.old past
            → JudgeAnswers s self.new (record { now = now; call = waits }) past result }
    {
        if late && matches!(self.side(), Side::Going) {
            *self = JudgePart::Lost;
            return None;
        }
        match self {
            JudgePart::NotNeeded | JudgePart::Lost => None,
            JudgePart::Pap(judge) => judge.tick(now).packet,
            JudgePart::Chap(judge) => judge.tick(now).packet,
        }
    }

    // How the peer's side stands.
    pub(crate) fn side(&self) -> Side
        ensures { (s : Setting) (past : List PhaseAt) → JudgeStands s self.now past → result ≡ peer_side s.peer_proves s past }
    {
        match self {
            JudgePart::NotNeeded => Side::Done,
            JudgePart::Lost => Side::Lost,
            JudgePart::Pap(judge) => Side::of(judge.outcome()),
            JudgePart::Chap(judge) => Side::of(judge.outcome()),
        }
    }

    // What it means that both sides are done.
    pub(crate) fn passed(&self) -> AuthNow
        ensures { (s : Setting) (past : List PhaseAt) → JudgeStands s self.now past → result ≡ peer_passed s.peer_proves s past }
    {
        match self {
            JudgePart::NotNeeded => AuthNow::Passed {
                peer: None,
                allow: Allow::Any,
            },
            JudgePart::Lost => AuthNow::Going,
            JudgePart::Pap(judge) => by_pap(judge.outcome()),
            JudgePart::Chap(judge) => by_chap(judge.outcome()),
        }
    }
}

// What it means that the peer has come to this outcome by PAP.
fn by_pap(outcome: &AuthOutcome) -> AuthNow
    ensures { result ≡ passed_by Pap outcome.now }
{
    match outcome {
        AuthOutcome::Passed(name, line) => AuthNow::Passed {
            peer: Some(name.copy()),
            allow: Allow::Pap(*line),
        },
        _ => AuthNow::Going,
    }
}

// The same by CHAP.
fn by_chap(outcome: &AuthOutcome) -> AuthNow
    ensures { result ≡ passed_by Chap outcome.now }
{
    match outcome {
        AuthOutcome::Passed(name, line) => AuthNow::Passed {
            peer: Some(name.copy()),
            allow: Allow::Chap(*line),
        },
        _ => AuthNow::Going,
    }
}

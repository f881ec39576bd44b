ghost use Rattle.std.specs.Prelude.{◌≡◌, ◌≤◌, ◌^◌, true, Some, None, is_some, List};
ghost use Rattle.ppp_auth.specs.Proved.{ProverStands, ProverAnswers, our_side, secret_in};
ghost use Rattle.ppp_auth.specs.Setting.{Setting, PhaseAt, starts, takes, waits, begun_at, is_late, name_or_empty};

use crate::config::AuthConfig;
use crate::outcome::Side;
use ppp_base::{Name, protocol};
use ppp_chap::ChapPeer;
use ppp_packet::Packet;
use ppp_pap::PapPeer;
use ppp_secrets::SecretsPair;

// Who proves ourselves.
#[derive(Debug, Drop)]
pub(crate) enum ProverPart {
    // We need not prove ourselves.
    NotNeeded,
    // The 60 seconds passed while we waited.
    Lost,
    // By PAP, before the phase has begun.
    Unbegun,
    // By PAP, where there was no secret as it began.
    NoSecret,
    Pap(PapPeer),
    Chap(ChapPeer),
}

impl ProverPart {
    pub(crate) fn begin(
        &mut self,
        now: u64,
        secrets: &SecretsPair,
        config: &AuthConfig,
    ) -> Option<Packet>
        requires { now ≤ 2 ^ 56 }
        ensures { (s : Setting) (past : List PhaseAt) → s.config ≡ config.now → ProverStands s self.old past
            → ProverAnswers s self.new (record { now = now; call = starts secrets.now }) past result }
    {
        match self {
            ProverPart::Unbegun => match secret(secrets, config) {
                Some(password) => {
                    let mut peer = PapPeer::new(config.user.copy(), password);
                    let sent = peer.begin(now).packet;
                    *self = ProverPart::Pap(peer);
                    sent
                }
                None => {
                    *self = ProverPart::NoSecret;
                    None
                }
            },
            ProverPart::Pap(peer) => peer.begin(now).packet,
            ProverPart::Chap(peer) => peer.begin(now).packet,
            ProverPart::NotNeeded | ProverPart::Lost | ProverPart::NoSecret => None,
        }
    }

    pub(crate) fn heard(
        &mut self,
        protocol: u16,
        packet: &Packet,
        now: u64,
        secrets: &SecretsPair,
        server: &Name,
    ) -> Option<Packet>
        ensures { (s : Setting) (past : List PhaseAt) → name_or_empty s.config.remotename ≡ server.now → is_some (begun_at past) ≡ true → ProverStands s self.old past
            → ProverAnswers s self.new (record { now = now; call = takes protocol packet.now secrets.now }) past result }
    {
        match self {
            ProverPart::Pap(peer) => {
                if protocol != protocol::PAP {
                    return None;
                }
                peer.heard(packet, now, &secrets.pap, &Name::new()).packet
            }
            ProverPart::Chap(peer) => {
                if protocol != protocol::CHAP {
                    return None;
                }
                peer.heard(packet, now, &secrets.chap, server).packet
            }
            ProverPart::NotNeeded | ProverPart::Lost | ProverPart::Unbegun | ProverPart::NoSecret =>
                None,
        }
    }

    // Time passes: late, 60 seconds or more after the beginning, whoever still waits is lost.
    pub(crate) fn tick(&mut self, now: u64, late: bool) -> Option<Packet>
        requires { now ≤ 2 ^ 56 }
        ensures { (s : Setting) (past : List PhaseAt) → late ≡ is_late waits (begun_at past) now → is_some (begun_at past) ≡ true → ProverStands s self.old past
            → ProverAnswers s self.new (record { now = now; call = waits }) past result }
    {
        if late && matches!(self.side(), Side::Going) {
            *self = ProverPart::Lost;
            return None;
        }
        match self {
            ProverPart::Pap(peer) => peer.tick(now).packet,
            ProverPart::Chap(peer) => peer.tick(now).packet,
            ProverPart::NotNeeded | ProverPart::Lost | ProverPart::Unbegun | ProverPart::NoSecret =>
                None,
        }
    }

    // How our side stands.
    pub(crate) fn side(&self) -> Side
        ensures { (s : Setting) (past : List PhaseAt) → ProverStands s self.now past → result ≡ our_side s.we_prove s past }
    {
        match self {
            ProverPart::NotNeeded => Side::Done,
            ProverPart::Unbegun => Side::Going,
            ProverPart::Lost | ProverPart::NoSecret => Side::Lost,
            ProverPart::Pap(peer) => Side::of(peer.outcome()),
            ProverPart::Chap(peer) => Side::of(peer.outcome()),
        }
    }
}

// The peer's name, for our secret: empty where none is given.
pub(crate) fn server(config: &AuthConfig) -> Name
    ensures { result ≡ name_or_empty config.now.remotename }
{
    match &config.remotename {
        Some(name) => name.copy(),
        None => Name::new(),
    }
}

// Our secret for PAP.
fn secret(secrets: &SecretsPair, config: &AuthConfig) -> Option<Name>
    ensures { (s : Setting) → s.config ≡ config.now → result ≡ secret_in s.config.password s secrets.now }
{
    if let Some(password) = &config.password {
        return Some(password.copy());
    }
    let line = secrets.pap.lookup(&config.user, &server(config))?;
    let secret = secrets.pap.secret(line)?;
    Some(secret.copy())
}

ghost use Rattle.std.specs.Prelude.{◌≡◌};
ghost use Rattle.ppp_auth.specs.Outcome.{whole, unless_lost, later};
ghost use Rattle.ppp_auth.specs.Phase.{name_of};
ghost use Rattle.ppp_auth.specs.Sides.{side_of};

use ppp_base::{Allow, Name};
use ppp_packet::AuthOutcome;

/// How the phase of authentication stands.
#[derive(Debug, Drop)]
pub enum AuthNow {
    /// It goes on.
    Going,
    /// Both sides are done.
    Passed {
        /// By which name the peer proved itself. None: it needn't.
        peer: Option<Name>,
        /// Which addresses it may have.
        allow: Allow,
    },
    /// The peer was refused, or didn't answer.
    PeerFailed,
    /// We were refused, have no secret, or got no answer.
    WeFailed,
}

// How one side stands: it is done or not needed, it goes on, or it is lost.
#[derive(Clone, Copy, Debug, PartialEq, Eq)]
pub(crate) enum Side {
    Done,
    Going,
    Lost,
}

impl Side {
    pub(crate) fn of(outcome: &AuthOutcome) -> Side
        ensures { result ≡ side_of outcome.now }
    {
        match outcome {
            AuthOutcome::Waiting => Side::Going,
            AuthOutcome::Passed(..) => Side::Done,
            AuthOutcome::Refused(_) | AuthOutcome::Unanswered(_) => Side::Lost,
        }
    }
}

impl AuthNow {
    /// The same again. It takes no memory.
    pub fn copy(&self) -> AuthNow
        ensures { result ≡ self.now }
    {
        match self {
            AuthNow::Going => AuthNow::Going,
            AuthNow::Passed { peer, allow } => AuthNow::Passed {
                peer: match peer {
                    Some(name) => Some(name.copy()),
                    None => None,
                },
                allow: *allow,
            },
            AuthNow::PeerFailed => AuthNow::PeerFailed,
            AuthNow::WeFailed => AuthNow::WeFailed,
        }
    }

    // How the two sides together stand, where this is what both being done means.
    pub(crate) fn whole(passed: AuthNow, peer: Side, ours: Side) -> AuthNow
        ensures { result ≡ whole passed peer ours }
    {
        match (peer, ours) {
            (Side::Lost, _) => AuthNow::PeerFailed,
            (Side::Done, Side::Lost) | (Side::Going, Side::Lost) => AuthNow::WeFailed,
            (Side::Done, Side::Done) => passed,
            (Side::Done, Side::Going) | (Side::Going, _) => AuthNow::Going,
        }
    }

    // How it stands after what a call says.
    pub(crate) fn later(self, now: AuthNow) -> AuthNow
        ensures { result ≡ later self now }
    {
        match self {
            AuthNow::Going => now,
            AuthNow::Passed { peer, allow } => match now {
                AuthNow::WeFailed => AuthNow::WeFailed,
                _ => AuthNow::Passed { peer, allow },
            },
            AuthNow::PeerFailed => AuthNow::PeerFailed,
            AuthNow::WeFailed => AuthNow::WeFailed,
        }
    }

    // By which name the peer proved itself, where it has passed.
    pub(crate) fn peer(self) -> Option<Name>
        ensures { result ≡ name_of self }
    {
        match self {
            AuthNow::Passed { peer, .. } => peer,
            AuthNow::Going | AuthNow::PeerFailed | AuthNow::WeFailed => None,
        }
    }
}

ghost use Rattle.std.specs.Prelude.{◌≡◌, ◌≤◌};
ghost use Rattle.ppp_base.specs.declared.mrru.TheConstants.{LEAST_MRU, DEFAULT_MRU};
ghost use Rattle.ppp_base.specs.Posts.{refusal_number, cause_number};

use crate::allow::Allow;
use crate::disc::Disc;
use crate::mrru::Mrru;
use crate::octets::{Frame, Name};
use crate::unit::Unit;

/// Why a link may not join a bundle.
#[derive(Clone, Copy, Debug, PartialEq, Eq)]
pub enum Refusal {
    /// A bundle of the same peer has other sizes of datagrams in pieces.
    Unlike,
    /// The unit that was asked for carries another bundle.
    UnitTaken,
    /// The log of the unit has too little room.
    NoRoom,
}

impl Refusal {
    /// Its number in a mark, 1 to 3.
    pub fn number(self) -> u8
        ensures value { result ≡ refusal_number self }
        ensures range { (1 ≤ result) × (result ≤ 3) }
    {
        match self {
            Refusal::Unlike => 1,
            Refusal::UnitTaken => 2,
            Refusal::NoRoom => 3,
        }
    }
}

/// Why a bundle ends the sessions of its links.
#[derive(Clone, Copy, Debug, PartialEq, Eq)]
pub enum CloseCause {
    /// No datagram passed for as long as the option `idle` says.
    Idle,
    /// It was up for as long as the option `maxconnect` says.
    ConnectTime,
    /// The addresses could not be agreed on.
    IpcpFailed,
    /// The peer ended it.
    EndedByPeer,
    /// Its log took too many marks.
    TooManyChanges,
}

impl CloseCause {
    /// Its number in a mark, 12 to 16.
    pub fn number(self) -> u8
        ensures value { result ≡ cause_number self }
        ensures range { (12 ≤ result) × (result ≤ 16) }
    {
        match self {
            CloseCause::Idle => 12,
            CloseCause::ConnectTime => 13,
            CloseCause::IpcpFailed => 14,
            CloseCause::EndedByPeer => 15,
            CloseCause::TooManyChanges => 16,
        }
    }
}

/// A link whose peer has proved itself asks for a bundle.
#[derive(Debug, PartialEq, Eq, Drop)]
pub struct Join {
    /// The stay that begins: one for each Join of a link, numbered from 1 on.
    pub stay: u32,
    /// The name by which the peer proved itself.
    pub peer: Option<Name>,
    /// What the peer named itself by beside that.
    pub disc: Option<Disc>,
    /// Some exactly where both ends asked for multilink.
    pub mrru: Option<Mrru>,
    /// The most octets of information that the peer takes, 128 to 1500.
    pub mru: u16,
    /// Which addresses the peer may have.
    pub allow: Allow,
    ghost mru_range: { (LEAST_MRU ≤ mru) × (mru ≤ DEFAULT_MRU) },
}

/// What a link posts to the table.
#[derive(Debug, PartialEq, Eq, Drop)]
pub enum UpPost {
    /// It asks for a bundle.
    Join(Join),
    /// A frame came whose protocol is the bundle's to look at.
    Frame { protocol: u16, information: Frame },
    /// A stay is over.
    Leave { stay: u32 },
}

/// What the table posts to a link.
#[derive(Debug, PartialEq, Eq, Drop)]
pub enum Post {
    /// In this stay the link is a member of the unit's bundle. `live` says whether the bundle's addresses are agreed on.
    Member {
        stay: u32,
        unit: Unit,
        live: bool,
    },
    /// The link may not join.
    Refused {
        stay: u32,
        reason: Refusal,
    },
    /// The bundle ends the link's session.
    Close {
        stay: u32,
        unit: Unit,
        cause: CloseCause,
        /// Milliseconds since the last datagram, or since the bundle was up: 0 for the other causes.
        elapsed_ms: u32,
        live: bool,
    },
    /// The link is to send this.
    Send {
        protocol: u16,
        information: Frame,
    },
    /// The link is to reject this protocol.
    Reject {
        protocol: u16,
        information: Frame,
    },
    /// A datagram waits for a link that dials on demand.
    Wake,
}

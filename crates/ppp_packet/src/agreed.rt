use ppp_base::{Disc, Mrru, SendSettings};

/// By which protocol one end of a link proves who it is.
#[derive(Clone, Copy, Debug, PartialEq, Eq)]
pub enum Method {
    /// By name and password (RFC 1334).
    Pap,
    /// By a challenge and MD5 (RFC 1994).
    Chap,
}

/// What both ends of a link have agreed on (RFC 1661, section 6, and RFC 1990, section 5.1).
#[derive(Debug, Drop)]
pub struct Agreed {
    /// How we prove who we are. None: we need not.
    pub we_prove: Option<Method>,
    /// How the peer proves who it is. None: it need not.
    pub peer_proves: Option<Method>,
    /// The most octets of information that the peer takes, 128 to 1500.
    pub peer_mru: u16,
    /// The most octets of a datagram in pieces, where both ends asked for multilink.
    pub mrru: Option<Mrru>,
    /// What the peer named itself by beside its authentication.
    pub disc: Option<Disc>,
    /// How frames to the peer are written.
    pub send: SendSettings,
    /// The octets below 32 that the peer escapes, a bit for each.
    pub receive_map: u32,
}

use ppp_fsm::Limits;

/// What the options of a bundle's maker ask of IPCP.
#[derive(Clone, Copy)]
pub struct IpWish {
    /// Our address. 0.0.0.0: the peer is to name it.
    pub local: [u8; 4],
    /// The peer's address, where it is to have this one. 0.0.0.0 is one as well.
    pub remote: Option<[u8; 4]>,
    /// The peer may name another address for us.
    pub accept_local: bool,
    /// The peer may take another address than the wished one.
    pub accept_remote: bool,
    /// Seconds before a request is sent again: at least 1.
    pub restart_s: u8,
    /// How often a request is sent.
    pub limits: Limits,
    /// So many Naks since the last Ack are sent before the options are rejected: at least 1.
    pub max_failure: u8,
}

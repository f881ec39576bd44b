use ppp_base::Disc;
use ppp_fsm::Limits;

/// What the options of a link ask of LCP.
#[derive(Drop)]
pub struct LcpWish {
    /// The most octets of information that we take: 128 to 1500.
    pub mru: u16,
    /// The octets below 32 that the peer must escape, a bit for each.
    pub map: u32,
    /// We ask for no map.
    pub default_map: bool,
    /// We ask for a magic number.
    pub magic: bool,
    /// Protocol numbers below 256 may be one octet, in both directions.
    pub pfc: bool,
    /// Address and control may be left out, in both directions.
    pub acfc: bool,
    /// We ask for multilink, and allow it.
    pub multilink: bool,
    /// The most octets of a datagram in pieces that we take: 1500 to 2048.
    pub mrru: u16,
    /// What we name ourselves by, with multilink alone.
    pub disc: Option<Disc>,
    /// The peer may prove who it is by PAP.
    pub want_pap: bool,
    /// The peer may prove who it is by CHAP, which is asked for first.
    pub want_chap: bool,
    /// We do not prove who we are by PAP.
    pub refuse_pap: bool,
    /// We do not prove who we are by CHAP.
    pub refuse_chap: bool,
    /// Seconds between echoes. 0: none are sent.
    pub echo_interval_s: u16,
    /// So many echoes in a row without an answer end the link. 0: any number may go unanswered.
    pub echo_failure: u8,
    /// Seconds before a request is sent again: at least 1.
    pub restart_s: u8,
    /// How often a request is sent.
    pub limits: Limits,
    /// So many Naks in a row are sent before the options are rejected: at least 1.
    pub max_failure: u8,
}

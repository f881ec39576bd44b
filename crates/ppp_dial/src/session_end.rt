/// How a session ended.
#[derive(Clone, Copy, Debug, PartialEq, Eq)]
pub struct SessionEnd {
    /// The number of its cause. 12 is idle: no datagram had passed for too long.
    pub cause: u8,
    /// The exit status of a link that finishes with this session.
    pub status: u8,
    /// Whether the network protocol was open in it. A session that wasn't live is a failure.
    pub live: bool,
}

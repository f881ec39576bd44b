/// What a deadline is for. Of those that are due together the first here is treated first.
#[derive(Clone, Copy, Debug, PartialEq, Eq)]
pub enum Slot {
    /// A request of LCP is sent again, or given up.
    LcpRestart,
    /// A packet of an authentication is sent again, or given up.
    AuthRestart,
    /// The authentication has lasted too long.
    AuthEnd,
    /// An echo is requested.
    Echo,
    /// The wait for the next attempt is over.
    Hold,
    /// A request of IPCP is sent again, or given up.
    IpcpRestart,
    /// No datagram has passed for too long.
    Idle,
    /// The connection has lasted as long as it may.
    Connect,
}

impl Slot {
    /// Each slot, in the order in which those that are due together are treated.
    pub const ALL: [Slot; 8] = [
        Slot::LcpRestart,
        Slot::AuthRestart,
        Slot::AuthEnd,
        Slot::Echo,
        Slot::Hold,
        Slot::IpcpRestart,
        Slot::Idle,
        Slot::Connect,
    ];
}

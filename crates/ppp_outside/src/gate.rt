use ppp_base::LinkId;

/// Where a worker passes the gate.
#[derive(Clone, Copy, Debug, PartialEq, Eq)]
pub enum GatePlace {
    /// Before it reads this link's line.
    Read(LinkId),
    /// After a step of this link that opened IPCP or LCP.
    Opened(LinkId),
}

/// What every worker passes, so that a test can hold one of them back. The program's gate does nothing.
pub trait Gate: Drop {
    /// Passes it, and waits there as long as it likes.
    fn pass(&self, place: GatePlace);
}

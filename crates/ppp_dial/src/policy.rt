/// The options of one link that say when it dials.
#[derive(Clone, Copy, Debug, PartialEq, Eq)]
pub struct DialPolicy {
    /// Whether the link dials again after a session.
    pub persist: bool,
    /// Whether the link waits for a packet before it dials.
    pub demand: bool,
    /// Seconds from the end of a session to the next attempt.
    pub holdoff_s: u16,
    /// After so many failures in a row the link finishes. 0 is no limit.
    pub maxfail: u16,
}

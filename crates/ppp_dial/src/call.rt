use crate::session_end::SessionEnd;

/// What a dial is told: its calls, as lists of what happened have them.
#[derive(Clone, Copy, Debug, PartialEq, Eq)]
pub enum CallKind {
    /// The link starts.
    Start,
    /// A packet waits for the link.
    Wake,
    /// The hang-up signal came.
    Hup,
    /// The time is looked at.
    Tick,
    /// The session that an attempt led to is over.
    SessionOver(SessionEnd),
    /// The link is to stop.
    Stop,
}

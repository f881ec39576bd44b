use ppp_base::Unit;
use ppp_link_rules::cause::Cause;

// What a link does.
#[derive(Clone, Copy, Debug, PartialEq, Eq)]
pub enum Doing {
    // It hasn't begun.
    New,
    // It dials.
    Dials,
    // Its session has a line, or had one.
    HasLine,
    // Its session is just over.
    IsOver,
    // It holds off until this moment, in milliseconds.
    Holds(u64),
    // It waits for a packet.
    Waits,
    // It has finished, with this exit status.
    HasFinished(u8),
}

// What a link's log tells, kept as fields: nothing is ever looked up in the log.
#[derive(Clone, Copy, Debug, PartialEq, Eq)]
pub struct Control {
    // The number of the present session, or of the last one.
    pub session: u32,
    pub doing: Doing,
    // INT or TERM came.
    pub is_stopped: bool,
    // How often LCP was in Opened.
    pub openings: u32,
    // How often a bundle was asked for, the present stay, its unit, and whether its bundle is live.
    pub stays: u32,
    pub stay: Option<u32>,
    pub unit: Option<Unit>,
    pub live: bool,
    // Why the session ends, whether it was live, and how many marks the log had before its attempt.
    pub cause: Option<Cause>,
    pub was_live: bool,
    pub from: u32,
}

//! What a mark tells: one number for each kind. Kinds 1 to 6 and 9 to 19 stand in a link's log, 32 to 40 in a unit's, 7
//! and 8 in both.

/// A dial begins, and with it a session.
pub const ATTEMPT: u8 = 1;
/// The session has its line.
pub const LINE: u8 = 2;
/// LCP has opened.
pub const LCP_OPEN: u8 = 3;
/// LCP has closed.
pub const LCP_CLOSED: u8 = 4;
/// The peer has proved itself.
pub const AUTH_OPEN: u8 = 5;
/// What the peer had proved is over.
pub const AUTH_CLOSED: u8 = 6;
/// A script was started.
pub const START: u8 = 7;
/// A script has ended.
pub const ENDED: u8 = 8;
/// The link asks for a bundle.
pub const ASKED: u8 = 9;
/// The link asks no more, or is no member any more.
pub const LEFT: u8 = 10;
/// The link is a member.
pub const MEMBER: u8 = 11;
/// The bundle has carried a datagram.
pub const LIVE: u8 = 12;
/// The link may not join.
pub const REFUSED: u8 = 13;
/// A signal came.
pub const SIGNAL: u8 = 14;
/// Why the session ends.
pub const CAUSE: u8 = 15;
/// The session is over.
pub const OVER: u8 = 16;
/// The link waits for a time before the next attempt.
pub const HOLD: u8 = 17;
/// The link waits to be woken.
pub const WAIT: u8 = 18;
/// The link has finished.
pub const FINISHED: u8 = 19;
/// A bundle is made.
pub const MADE: u8 = 32;
/// A link comes in.
pub const IN: u8 = 33;
/// A link goes out.
pub const OUT: u8 = 34;
/// IP has opened.
pub const IP_OPEN: u8 = 35;
/// Our address in this opening.
pub const LOCAL: u8 = 36;
/// The peer's address in this opening.
pub const REMOTE: u8 = 37;
/// IP has closed.
pub const IP_CLOSED: u8 = 38;
/// Why the bundle closes.
pub const CLOSE: u8 = 39;
/// The bundle is unmade.
pub const UNMADE: u8 = 40;

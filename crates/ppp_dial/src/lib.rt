//! When a link dials again, as pppd(8) has it: the options `persist`, `demand`, `holdoff` and `maxfail`.
//!
//! `Dial` is a machine over moments. It is told that the link starts, that a packet wakes it, of signals, of the time and
//! of each session's end, and answers what is to be done: begin an attempt, hold off, wait for a packet, or finish with an
//! exit status. It does no input or output and takes no memory.
//!
//! Which answers may come, over a whole list of calls, is `DialLaw` of specs/DialLaw.antt.
#![tactic(auto)]

mod call;
mod dial;
pub mod laws;
mod now;
mod policy;
pub mod rows;
mod rules;
mod session_end;
mod stage;
#[cfg(test)]
mod tests;

pub use call::CallKind;
pub use dial::Dial;
pub use now::DialNow;
pub use policy::DialPolicy;
pub use session_end::SessionEnd;

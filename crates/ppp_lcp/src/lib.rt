//! LCP, which negotiates a link (RFC 1661, with RFC 1990's options): what is acknowledged, what we ask for, echoes,
//! and what both ends have agreed on.
//!
//! `verdict` answers a peer's request. `Ours` is what we ask for at present. `Lcp` is the negotiation on one link:
//! each call is told the time in milliseconds and answers what is to be sent in its `LcpOut`. The automaton, the
//! identifiers and the restart timer are those of `ppp_control`.
//!
//! LCP is a value of `ppp_control`'s rules, which stands in `specs/Session.antt` with what a session has come to: all by looking back over its calls.
#![tactic(auto)]

mod judge;
mod last;
pub mod laws;
mod lcp;
mod magic;
mod ours;
mod out;
#[cfg(test)]
mod tests;
mod wish;

pub use judge::verdict;
pub use lcp::{Lcp, is_agreed};
pub use out::LcpOut;
pub use ppp_control::Verdict;
pub use ppp_packet::{Agreed, Method};
pub use wish::LcpWish;

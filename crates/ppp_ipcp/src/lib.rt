//! IPCP, which negotiates the addresses of both ends (RFC 1332): which address the peer may take, what we ask for, and
//! what both ends agreed on.
//!
//! `Ipcp` is the negotiation of one bundle. Each call is told the time in milliseconds, and answers in its `IpcpOut`
//! what is to be sent. The automaton with its identifiers and its restart timer is that of `ppp_control`.
//!
//! IPCP is a value of `Rules` (`ppp_control/specs/Rules.antt`): `ip_rules` in `specs/Session.antt`, where also stands what a
//! session has come to, by looking back over its calls.
#![tactic(auto)]

mod addresses;
mod ipcp;
mod judge;
mod last;
pub mod laws;
mod ours;
#[cfg(test)]
mod tests;
mod wish;

pub use addresses::Addresses;
pub use ipcp::Ipcp;
pub use ppp_control::StepOut as IpcpOut;
pub use wish::IpWish;

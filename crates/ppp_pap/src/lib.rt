//! PAP (RFC 1334): one side sends its name and password until it is answered, the other looks them up in its secrets.
//!
//! `PapPeer` proves who we are, `PapJudge` looks who the peer is. What each answers stands in `specs/Peer.antt` and `specs/Judge.antt`, over
//! the whole list of its calls; who passes in `specs/Passes.antt`.
#![tactic(auto)]

mod judge;
pub mod laws;
mod packets;
mod peer;
#[cfg(test)]
mod tests;

pub use judge::PapJudge;
pub use peer::PapPeer;

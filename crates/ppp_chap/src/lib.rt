//! CHAP (RFC 1994): one side sends a challenge, the other answers with the MD5 of it and of their common secret.
//!
//! `ChapPeer` proves who we are, `ChapJudge` looks who the peer is. What each answers stands in `specs/Peer.antt` and `specs/Judge.antt`, over
//! the whole list of its calls; who passes in `specs/Passes.antt`.
#![tactic(auto)]

mod judge;
pub mod laws;
mod packets;
mod peer;
#[cfg(test)]
mod tests;

pub use judge::ChapJudge;
pub use packets::chap_value;
pub use peer::ChapPeer;

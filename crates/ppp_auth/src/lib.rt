//! The phase of authentication of one link (RFC 1661, section 3.5): the judge of the peer and the prover of ourselves, each by PAP or by
//! CHAP, as far as both ends agreed on it, and the 60 seconds that they may take.
#![tactic(auto)]

mod config;
mod judging;
pub mod laws;
mod out;
mod outcome;
mod phase;
mod proving;
#[cfg(test)]
mod tests;

pub use config::AuthConfig;
pub use out::{PhaseOut, PhasePacket, PhasePackets};
pub use outcome::AuthNow;
pub use phase::{AuthPhase, PHASE_MS};

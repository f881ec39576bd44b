//! The framing of RFC 1662: octets of a serial line become frames, and frames become octets.
//!
//! - `Deframer` takes a stream octet by octet and answers at each flag: a frame with a right check
//!   sum, the reason why the octets before the flag are none, or nothing.
//! - `frame_into` writes one frame, escaped and between two flags.
//! - `fcs` is the check sum of 16 bits.
//! - `laws` has what is true of the definitions: a written frame is heard again, whatever came before.
//!
//! What a stream gives stands in `specs/Frames.antt`, over the whole stream; the check sum in
//! `specs/Residue.antt`, as a division. No call but `Deframer::new` takes memory.
#![tactic(auto)]

mod checksum;
mod deframer;
mod encode;
mod fault;
mod heard;
pub mod laws;
mod octets;
mod room;
mod runs;
mod words;

pub use checksum::fcs;
pub use deframer::Deframer;
pub use encode::frame_into;
pub use fault::FrameFault;
pub use heard::{Heard, Span};

#[cfg(test)]
mod tests;

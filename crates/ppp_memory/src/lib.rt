//! The outside in memory: lines, dialers, files, packet sockets, a control, a clock, a gate and a kit, so that every layer
//! is proved and tested without a socket.
//!
//! Each object answers exactly what its lists say, and tells what it holds and what was done with it. What it
//! records has its room reserved when the object is made. The `Replay..` objects keep no record: each call has the
//! answer that was set.
#![tactic(auto)]

mod clock;
mod control;
mod dialer;
mod files;
mod gate;
mod iface_in;
mod iface_out;
mod kept_answer;
mod kit;
#[cfg(test)]
mod kit_tests;
mod line;
#[cfg(test)]
mod line_tests;
mod new_line;
mod replay_dialer;
mod replay_line;
mod replay_sink;
#[cfg(test)]
mod tests;

pub use clock::MemoryClock;
pub use control::MemoryControl;
pub use dialer::MemoryDialer;
pub use files::{MemoryFiles, StoredFile};
pub use gate::MemoryGate;
pub use iface_in::{MemoryIfaceIn, Message};
pub use iface_out::MemoryIfaceOut;
pub use kit::{KitParts, MemoryKit};
pub use line::{LineParts, LineTurn, MemoryLine};
pub use new_line::NewLine;
pub use replay_dialer::ReplayDialer;
pub use replay_line::ReplayLine;
pub use replay_sink::ReplaySink;

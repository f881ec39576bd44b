//! The outside, as traits with a written meaning and a count of faults, versions of them in memory, and what every
//! program does with them: read a source to its end, write a text page by page.
#![tactic(auto)]

mod asked;
mod clock;
mod control;
mod dialer;
mod files;
mod gate;
mod hook_paths;
mod hook_words;
mod iface;
mod kit;
pub mod laws;
mod line_in;
mod line_words;
mod memory_sink;
mod memory_source;
mod memory_spawner;
mod messages;
mod reading;
mod replay_spawner;
mod scripted;
mod signal_names;
mod sink;
mod source;
mod spawner;
#[cfg(test)]
mod spawner_tests;
mod streams;
#[cfg(test)]
mod tests;
#[cfg(test)]
mod value_tests;
mod writing;

pub use asked::Asked;
pub use clock::Clock;
pub use control::{Control, Word};
pub use dialer::{DialNext, Dialer, Dialled};
pub use files::{Files, WholeFile};
pub use gate::{Gate, GatePlace};
pub use hook_paths::HookPaths;
pub use hook_words::{HookArgs, HookScript, HookWords, words_of};
pub use iface::{Gave, IfaceGot, IfaceIn, IfaceOut, UnitDatagram};
pub use kit::Kit;
pub use line_in::{LineAnswer, LineGot, LineIn, MOST_SET};
pub use line_words::LineWords;
pub use memory_sink::MemorySink;
pub use memory_source::MemorySource;
pub use memory_spawner::MemorySpawner;
pub use messages::packet_in;
pub use reading::{Whole, read_whole};
pub use replay_spawner::ReplaySpawner;
pub use scripted::{Scripted, ScriptedDialer, ScriptedLine, ScriptedSink, ScriptedSpawner};
pub use signal_names::signal_named;
pub use sink::{Sink, SinkNext, Took};
pub use source::{Got, Source};
pub use spawner::{Ran, ScriptEnd, Spawner};
pub use streams::{FromReader, ToWriter};
pub use writing::{PAGE, TextWriter, write_whole};

//! The outside for real: the traits of `ppp_outside` over the operating system.
//!
//! Each object keeps its counts and tells nothing of content: what stands in a file or goes over a line is the
//! world's. Want of memory inside a call that has no answer for it is a fault.
#![tactic(auto)]

mod child;
mod child_output;
#[cfg(test)]
mod child_tests;
mod clock;
mod control;
#[cfg(test)]
mod control_tests;
mod dialer;
mod files;
mod gate;
mod iface_in;
mod iface_out;
#[cfg(test)]
mod iface_tests;
mod kit;
#[cfg(test)]
mod kit_tests;
mod line_counts;
mod line_in;
mod line_out;
#[cfg(test)]
mod line_tests;
mod socket;
mod spawner;
#[cfg(test)]
mod spawner_tests;
mod streams;
#[cfg(test)]
mod tests;
mod texts;

pub use clock::RealClock;
pub use control::RealControl;
pub use dialer::RealDialer;
pub use files::RealFiles;
pub use gate::RealGate;
pub use iface_in::RealIfaceIn;
pub use iface_out::RealIfaceOut;
pub use kit::RealKit;
pub use line_in::RealLineIn;
pub use line_out::RealLineOut;
pub use spawner::RealSpawner;
pub use streams::StandardStream;

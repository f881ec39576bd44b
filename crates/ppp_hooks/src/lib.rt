//! The machine that runs the site scripts of one link or one unit: up as its protocol opens, down as it closes,
//! one at a time.
//!
//! Each opening has a number, so a protocol that goes down and comes up again while a script runs is not missed.
//! The machine keeps a few fields and looks back at nothing. `HookMachine` is told of openings and closings and
//! starts jobs. A job takes the spawner with it, calls it once, and brings it back with the answer.
//! The law that the starts and ends keep is `HookLaw`, and that they agree with the protocol is `Settled`.
#![tactic(auto)]

mod facts;
mod job;
pub mod laws;
mod machine;
#[cfg(test)]
mod tests;

pub use facts::{HookFacts, HookStart};
pub use job::{HookDone, HookJob};
pub use machine::HookMachine;

//! One unit: its addresses, its ip scripts, its log, and the bundle of links that carries it. One machine without I/O: an
//! event comes in, and what is to be sent and given, and the script that is due, are taken out.
//!
//! `Bundle` is a unit. Its bundles are plain ones, of one link, or multilink bundles. What an event makes of it stands in
//! `specs/UnitPart.antt`, what its marks say in `specs/Replay.antt`. No call but `Bundle::new` takes memory.
#![tactic(auto)]

mod asks;
mod bundle;
mod event;
mod frames;
pub mod laws;
mod scripts;
mod steps;
#[cfg(test)]
mod tests;
mod unit_state;

pub use bundle::Bundle;
pub use event::BundleEvent;
pub use ppp_unit_parts::{BundleEnd, Member, Sending, UnitCounts, UnitWish, unit_wish};

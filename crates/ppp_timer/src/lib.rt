//! Deadlines: for each purpose of a link or a unit at most one moment, and which of them is due first.
#![tactic(auto)]

mod deadlines;
mod slot;
#[cfg(test)]
mod tests;

pub use deadlines::{Deadlines, has_come};
pub use slot::Slot;

//! What is so of each table between two steps, by what its calls are said to do alone: that each of its units is sound.
//!
//! `TableStands` of specs/TableStands.antt says what; the laws say that each event, each post and each taking keeps it.
#![tactic(auto)]

pub mod laws;

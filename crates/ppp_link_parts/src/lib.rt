//! What a link keeps: its records (log, scripts, dial, and what its marks tell), the ring of octets for its line, the ring
//! of posts to the table, and its chat.
#![tactic(auto)]

mod answering;
pub mod control;
mod dialling;
pub mod hearing;
pub mod out_ring;
pub mod records;
mod scripts;
pub mod status;
pub mod talk;
#[cfg(test)]
mod tests;
pub mod up_ring;

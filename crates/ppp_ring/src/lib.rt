//! A ring of pieces of octets, each with a head, in room that is taken once.
#![tactic(auto)]

mod pieces;
#[cfg(test)]
mod tests;

pub use pieces::PieceRing;

//! What is true of the definitions, each proved of a function that does nothing.

pub mod judge;
pub mod packets;
pub mod peer;

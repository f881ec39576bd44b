//! Secrets files (pppd(8), "Authentication"): whose secret a peer has to know, and which addresses it may have.
//!
//! Each line of the text by itself is words: a client, a server, a secret, and then the addresses that the client may
//! have. Contracts see a `Secrets` as the list of its lines, with their address words as `AddressWord` and `Cover`.
#![tactic(auto)]

mod address_word;
mod allowing;
mod fault;
pub mod laws;
mod line;
mod reading;
mod secrets;

pub use address_word::{AddressWord, Cover};
pub use fault::SecretsFault;
pub use secrets::{Secrets, SecretsPair};

#[cfg(test)]
mod tests;

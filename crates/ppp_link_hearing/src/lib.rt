//! What a link hears: the octets of its line, which are first the chat script's and then frames, and the time, which a chat looks at.
//! Each call does what a rule of the crate `ppp_link_rules` says, on the machine of `ppp_link_core`.
#![tactic(auto)]

pub mod chat;
mod frames;
pub mod octets;
#[cfg(test)]
mod tests;
pub mod way;

//! What a link does at a call, beside its errands: how a session ends, what LCP's answers lead to, how the peer proves itself.
//! Each call does what a rule of the crate `ppp_link_rules` says.
#![tactic(auto)]

mod arguments;
pub mod asks;
mod authentication;
mod causes;
mod endings;
mod joins;
mod lcp_calls;
pub mod link_core;
mod looking;
mod new;
mod posts;
mod readers;
mod sending;
#[cfg(test)]
mod tests;

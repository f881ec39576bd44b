//! What a link does as its errands come and go, at a signal, a post and a tick, and at the end of each step.
//! Each call does what a rule of the crate `ppp_link_rules` says, on the machine of `ppp_link_core`.
#![tactic(auto)]

pub mod coming;
pub mod dialling;
pub mod errands;
pub mod hearing;
pub mod jobs;
pub mod line;
pub mod new;
pub mod posts;
pub mod sessions;
pub mod signals;
pub mod ticking;

//! What each event does to a link's machine, whole, up to the end of its step, and the errands that are given.
//! Between two calls the machine stands for a state of which all holds that is proved of a link between two steps: `Goes` of
//! specs/Going.antt says so, and each call keeps it.
#![tactic(auto)]

pub mod errands;
pub mod events;
pub mod looking;
pub mod new;
pub mod octets;

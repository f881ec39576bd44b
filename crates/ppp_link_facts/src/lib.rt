//! What is true of each link between two steps, by the rules of `ppp_link_rules` alone: that no mark ever meets a full log.
//!
//! `Budget` of specs/Budget.antt says how much room is left, and why; the laws say that each octet and each event keep it.
#![tactic(auto)]

pub mod laws;

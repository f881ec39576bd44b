//! One link (pppd(8)): it dials, talks by chat, negotiates by LCP, proves who its ends are, joins a bundle and passes
//! frames on, hangs up, holds off and dials again. It runs its site scripts while its peer has proved itself, and its log
//! has all that it decided.
//!
//! `LinkPart` of the crate `ppp_link_rules` says what each of the nine events makes of a link.
#![tactic(auto)]

pub mod body;
mod dial_job;
mod ends;
mod event;
mod keeping;
pub mod laws;
mod link;
mod piece;
mod readers;
mod reading;
mod returning;
mod stepping;
mod takes;
mod telling;
#[cfg(test)]
mod tests;
mod writing;

pub use dial_job::{DialDone, DialJob};
pub use event::LinkEvent;
pub use link::Link;
pub use piece::Piece;
pub use ppp_link_rules::{
    Cause, Errand, FrameCounts, LinkView, ReadEnd, SentEnd, auth_config, dial_policy, lcp_wish,
};
pub use reading::{ReadOver, ReadStep, Reading};
pub use writing::{Sent, Writing};

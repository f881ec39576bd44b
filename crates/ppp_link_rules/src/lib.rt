//! The rules of one link, by the definitions alone: what each event makes of it, what its log tells, what its options ask,
//! and laws of them. The machine itself is the crate `ppp_link`.
//!
//! `LinkPart` of specs/LinkPart.antt says what each of the nine events makes of a link.
#![tactic(auto)]

pub mod cause;
pub mod counts;
pub mod errand;
pub mod laws;
pub mod limits;
pub mod rows;
pub mod view;
pub mod wishes;

pub use cause::Cause;
pub use counts::FrameCounts;
pub use errand::{Errand, ReadEnd, SentEnd};
pub use view::LinkView;
pub use wishes::{auth_config, dial_policy, lcp_wish};

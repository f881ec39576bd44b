//! What a unit keeps of its bundle: the wish of its maker's options, the members in link order, its IPCP with what follows
//! from each call, how packets are sent (whole on the one member, or in pieces over all), and the lists in which waits what
//! a step sends and gives.
//!
//! The unit itself, with its log and its scripts, is `ppp_bundle`. What a packet is sent as stands in `specs/Pieces.antt`.
#![tactic(auto)]

pub mod laws;
mod live;
mod member;
mod outbox;
mod sends;
#[cfg(test)]
mod tests;
mod wish;
mod wishes;

pub use live::{IpCall, Live, has_finished};
pub use member::{Member, MemberList};
pub use outbox::{
    BundleEnd, Ending, GivenList, MOST_GIVEN, MOST_SENT, Sending, SentList, UnitCounts,
};
pub use wish::UnitWish;
pub use wishes::unit_wish;

//! Multilink (RFC 1990) with the long header: a packet is cut over the member links of a bundle, and put together again
//! at the other end.
//!
//! - `cut` says which octets of a packet go to which member, and `Sending` numbers the pieces of one bundle.
//! - `Gather` takes the pieces in whatever order they come, and gives whole packets in the order of their numbers, never
//!   one over a missing piece and none twice.
//! - `Slots` is where pieces wait: a ring of 128.
//! - `laws` has what is true of the definitions: each packet is whole, every history delivers one thing, and from end to
//!   end what is given is a subsequence of what was sent.
//!
//! How a packet is cut stands in `specs/Cut.antt`, which packets are given in `specs/Delivered.antt`, over the whole list
//! of pieces, joins and leaves, and both ends together in `specs/Schedule.antt`. No call but `Gather::new`, `Given::new` and `Slots::new`
//! takes memory.
#![tactic(auto)]

mod counts;
mod cuts;
mod cutting;
mod facts;
mod gather;
mod given;
pub mod laws;
mod members;
mod numbers;
mod packet;
mod places;
mod sending;
mod settling;
mod slot;
mod slot_piece;
mod slots;
#[cfg(test)]
mod tests;

pub use counts::{GatherCounts, PieceNow};
pub use cuts::{CutPiece, Cuts};
pub use cutting::cut;
pub use gather::Gather;
pub use given::Given;
pub use members::{MemberView, Members};
pub use packet::MOST_PACKET;
pub use sending::Sending;
pub use slot_piece::{SlotPiece, SlotView};
pub use slots::Slots;

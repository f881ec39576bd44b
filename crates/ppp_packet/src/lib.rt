//! Control packets and their options, read and written (RFC 1661, sections 5 and 6), and what PAP and CHAP answer with them.
#![tactic(auto)]

mod agreed;
mod auth_out;
mod body;
mod fault;
pub mod laws;
mod option_item;
mod options;
mod packet;
#[cfg(test)]
mod tests;

pub use agreed::{Agreed, Method};
pub use auth_out::{AuthOut, AuthOutcome};
pub use body::{Body, ItemBody, MOST_BODY, MOST_ITEM_BODY};
pub use fault::{OptionFault, PacketFault};
pub use option_item::OptionItem;
pub use options::{OptionIter, OptionList, OptionRef, Options};
pub use packet::Packet;

//! Numbers, names and octets of bounded size that the layers of the daemon hand to one another.
#![tactic(auto)]

mod allow;
pub mod code;
mod disc;
mod ends;
mod hex;
mod hook_target;
pub mod laws;
mod link_id;
mod mrru;
mod no_memory;
mod numbers;
mod octets;
mod parts;
mod posts;
pub mod protocol;
mod random_words;
mod send_settings;
mod signal_word;
mod stepped;
#[cfg(test)]
mod tests;
mod unit;

pub use allow::Allow;
pub use disc::{Disc, MOST_ADDRESS};
pub use ends::Ends;
pub use hex::{hex_digit, read_hex, read_hex_number};
pub use hook_target::HookTarget;
pub use link_id::LinkId;
pub use mrru::{DEFAULT_MRU, LEAST_MRRU, LEAST_MRU, MOST_MRRU, Mrru};
pub use no_memory::NoMemory;
pub use numbers::{LeadingZeros, read_address, read_number};
pub use octets::{Datagram, Frame, MOST_DATAGRAM, MOST_FRAME, MOST_NAME, Name, Octets};
pub use parts::first_part;
pub use posts::{CloseCause, Join, Post, Refusal, UpPost};
pub use random_words::RandomWords;
pub use send_settings::{DEFAULT_MAP, SendSettings};
pub use signal_word::SignalWord;
pub use stepped::Stepped;
pub use unit::Unit;

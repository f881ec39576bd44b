//! The option words of pppd(8), and what they say.
//!
//! `kind_of` finds a word in the table of words: how each is spelled, what it is, and the range and default of its value
//! (specs/Table.antt). `number_item` and the other calls of `value` say what one word with its value says, an `Item`, or
//! why it is none (specs/Values.antt). `Config` and `LinkConfig` are what all words of a command say; each number in them
//! lies in its range. `OptionsFault` names the word that is wrong.
#![tactic(auto)]

mod config;
mod fault;
mod fault_text;
mod fault_word;
mod flag;
mod home;
mod ignored;
mod item;
mod kind;
pub mod laws;
mod link_config;
mod number;
#[cfg(test)]
mod tests;
mod text;
mod value;

pub use config::{Config, Links, MOST_LINKS};
pub use fault::OptionsFault;
pub use fault_word::FaultWord;
pub use flag::Flag;
pub use home::{device_of, home_unit};
pub use ignored::Ignored;
pub use item::{Item, Numbered};
pub use kind::{Included, Kind, Valued, included_spelling, kind_of, valued_spelling};
pub use link_config::{LinkConfig, copied_disc, copied_name, copied_script};
pub use number::{Number, default};
pub use text::Text;
pub use value::{asyncmap_item, endpoint_item, number_item, other_item, pty_item, text_item};

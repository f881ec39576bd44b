//! Options as operators of pppd write them (pppd(8)).
//!
//! `read_options` reads the words of a command, with the words of option files in the place of `file` and `call`
//! (specs/InPlace.antt), each by the table of words (specs/Meaning.antt), up to the first fault. Words before the first
//! `link` count for every link (specs/Scopes.antt); each option's value is that of its last word (specs/LinkOf.antt). What
//! the words are as a configuration, or which fault they have, is said by `ReadOf` of specs/ConfigOf.antt.
#![tactic(auto)]

mod connect;
mod file_words;
mod given;
mod last;
pub mod laws;
mod link;
mod links;
mod options_text;
mod placing;
mod read;
mod scope;
#[cfg(test)]
mod tests;

pub use options_text::read_options_text;
pub use ppp_option_words::{Config, FaultWord, LinkConfig, Links, MOST_LINKS, OptionsFault};
pub use read::read_options;

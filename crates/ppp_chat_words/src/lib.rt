//! The words of chat(8) as operators write them, and files of words.
//!
//! `read_words` reads a file by its name and splits it into words: an options file (pppd(8)), or a chat file, whose words
//! keep their backslashes (chat(8)). `chat_words` goes over the words behind chat's own name up to its script. Both are
//! shared by the option `connect` of pppd and by the program `chat`.
#![tactic(auto)]

mod file;
mod keyword;
pub mod laws;
mod options;
mod splitting;

pub use file::{FileWords, read_words};
pub use options::{ChatWords, DEFAULT_TIMEOUT, chat_words};
pub use splitting::{split, split_front};

#[cfg(test)]
mod tests;

//! The words of a text, as options files, secrets files and chat files have them (pppd(8), chat(8)).
//!
//! Words are separated by white space. A `#` where a word would begin starts a comment to the line's end. `'..'` and
//! `".."` quote, anywhere in a word. A backslash takes the next octet as it is, inside quotes too. What a word stands
//! for, and on which line it begins, is said by `Reads` of specs/Words.antt, over a text as specs/Text.antt has it.
#![tactic(auto)]

mod backslash;
mod fault;
mod front;
pub mod laws;
mod place;
mod reader;
mod splitting;
mod word;

pub use backslash::Backslash;
pub use fault::WordsFault;
pub use front::WordsFront;
pub use splitting::{words, words_in_front};
pub use word::Word;

#[cfg(test)]
mod tests;

//! The dialler's conversation with a modem or an access server, as chat(8) has it: expect, send, abort, time out.
//!
//! `Script::read` reads the words of a script once. `Chat` runs it as a machine: it is told of each octet that comes
//! and of the time, and answers what is to be sent and how the script has ended. It does no input or output, keeps a
//! window of octets, and takes no memory once the script is read.
//!
//! What a script sends and how it ends over a whole list of calls is `ChatOf` of specs/ChatOf.antt.
#![tactic(auto)]

mod chat;
mod directive;
mod directives;
mod ending;
mod event;
mod fault;
mod keyword;
pub mod laws;
mod now;
mod octets;
mod parts;
mod piece;
mod pieces;
mod script;
mod send;
mod stage;
mod step;
mod steps;
mod text;
mod walk;
mod window;
mod word;

pub use chat::Chat;
pub use event::Event;
pub use fault::ScriptFault;
pub use now::{ChatEnd, ChatNow};
pub use octets::{MOST_SENT, SentOctets};
pub use script::Script;

#[cfg(test)]
mod tests;

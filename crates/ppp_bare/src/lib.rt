//! `Bare` is one automaton (RFC 1661, section 4) with its ip scripts and their log. As Opened is entered the protocol opens under
//! the next number, as it is left it closes; what the scripts do then is `ppp_mark::ScriptLog`'s. What the acts of the automaton do to
//! the scripts stands in `specs/Acts.antt`. No call but `Bare::new` takes memory.
#![tactic(auto)]

mod bare;
#[cfg(test)]
mod tests;

pub use bare::{Bare, MOST_MARKS};

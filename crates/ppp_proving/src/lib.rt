//! What the two ways of proving who one is (PAP, RFC 1334, and CHAP, RFC 1994) share: a side's own packet, which is sent again until it
//! is answered, and the list of what a side has seen and answered.
#![tactic(auto)]

mod outcome;
mod resending;
#[cfg(test)]
mod tests;

pub use outcome::copied;
pub use resending::{Again, MOST_SENT, RESEND_MS, Resending};

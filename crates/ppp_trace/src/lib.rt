//! The reader of traces. A bare trace is the line `bare` and then a line for each step: the word of an event of the
//! option negotiation automaton of RFC 1661, or how the running site script ended. `read_bare` answers the steps, or
//! the first fault with its line, and `fault_text` is the line that tells it. `specs/BareTrace.antt` says what a trace
//! is, by its spelling, and `specs/FirstFault.antt` what is wrong with octets that are none. `laws` has that a trace has
//! one list of steps alone, octets have one first fault alone, and octets with a fault are no trace.
//!
//! A full trace is the line `full` with a seed, the sections `options`, `pap` and `chap`, and a line for each thing that
//! happens to a link, a unit or the table. `read_trace` answers what it says, or its first fault; `read_step` reads the
//! line of a step. `specs/FullTrace.antt` says what a section is, `FullSteps.antt` how a step is spelled, and
//! `FullFault.antt` what is wrong with octets that are none.
#![tactic(auto)]

mod bare;
mod fault;
mod fields;
mod full_step;
pub mod laws;
mod life;
mod link_step;
mod link_word;
mod made;
mod made_line;
mod parts;
mod sections;
mod step;
#[cfg(test)]
mod tests;
mod trace;
mod whole_trace;
mod words;
mod world_step;

pub use bare::read_bare;
pub use fault::{BadTrace, FaultKind, TraceFault, fault_text};
pub use full_step::read_step;
use ppp_fsm::FsmEvent;
pub use step::BareStep;
pub use trace::{Trace, read_trace};
pub use whole_trace::{MOST_MADE_STEPS, made_text, made_trace};
pub use world_step::{LineOctets, WorldStep};

/// How many steps a bare trace has at most.
pub const MOST_STEPS: usize = 100_000;

/// How many steps a full trace has at most.
pub const MOST_FULL_STEPS: usize = 1_000_000;

/// How many octets a trace has at most.
pub const MOST_OCTETS: u32 = 67_108_864;

/// How many octets a line has at most, its newline not counted.
pub const MOST_LINE: usize = 8_192;

/// Every event.
pub const EVENTS: [FsmEvent; 15] = [
    FsmEvent::Open,
    FsmEvent::Close,
    FsmEvent::Up,
    FsmEvent::Down,
    FsmEvent::Timeout,
    FsmEvent::RcrGood,
    FsmEvent::RcrBad,
    FsmEvent::Rca,
    FsmEvent::Rcn,
    FsmEvent::Rtr,
    FsmEvent::Rta,
    FsmEvent::Ruc,
    FsmEvent::RxjGood,
    FsmEvent::RxjBad,
    FsmEvent::Rxr,
];

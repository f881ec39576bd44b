//! Marks and logs. A link or a unit writes down what happened to it as a list of marks: each a kind, which is one of a
//! table, and a few numbers. `Log` keeps them in room that was reserved when it was made. `ScriptLog` is a machine of site
//! scripts together with a log: what the one does the other has. What the marks of a log say of scripts is read in one
//! place, `specs/Scripts.antt`, and the law that they keep is `LogLaw`.
#![tactic(auto)]

pub mod kind;
pub mod laws;
pub mod lines;
mod log;
mod mark;
pub mod name;
mod report;
mod script_log;
#[cfg(test)]
mod tests;

pub use log::Log;
pub use mark::Mark;
pub use report::{LogName, NamedLog, ReportEnd, end_into, section_into};
pub use script_log::{MOST_LIMIT, ScriptLog};

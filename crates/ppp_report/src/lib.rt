//! The check of a report. A report is what `ppp_mark` writes of the logs of links and units: `section_into` and
//! `end_into`. `check_report` reads one back, and answers the first line that no report may have, at which the law of
//! site scripts fails, or with which an object ends though its scripts don't agree with the protocol. What a report's
//! lines are stands in `specs/Report.antt`, and what is wrong with others in `specs/BadLine.antt`: by the fronts of
//! what is written, and by looking back from a line. It takes no memory.
#![tactic(auto)]

mod check;
mod kinds;
pub mod laws;
mod mark_line;
pub mod number;
mod scripts;
mod section;
#[cfg(test)]
mod tests;

pub use check::{BadReport, check_report};

//! A run of a router in a trace, as plain values: what one step makes of its links, its units and its table, by the rules of a link
//! (`ppp_link_rules`), of the table (`ppp_table`) and of carrying (`ppp_carry`) alone; and what is printed of it.
//!
//! `specs/WorldPart.antt` says what one step is, `specs/Run.antt` what a run is, and `specs/Headline.antt` what holds wherever a run
//! has come to: `laws::every_run` shows it.
#![tactic(auto)]

pub mod laws;
pub mod rows;

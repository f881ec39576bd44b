//! Which links go where: sixteen units, the rule by which links join a bundle or are refused, and what waits between links and units.
//!
//! What an event or a post makes of a table stands in `specs/TablePart.antt` and `specs/PostPart.antt`; they use units by
//! `UnitPart` of `ppp_bundle` alone. No call but `Table::new` takes memory.
#![tactic(auto)]

mod asking;
mod before;
mod beginning;
mod core_state;
mod counting;
mod draining;
mod event;
mod joining;
mod news;
mod posting;
mod stays;
mod stepping;
mod table;
mod taking;
mod telling;
mod verdict;

pub use counting::TableCounts;
pub use event::TableEvent;
pub use ppp_table_parts::deliveries::Delivery;
pub use stays::Stay;
pub use table::Table;
pub use verdict::Verdict;

//! What the table of units keeps beside its units: what waits for each link, the datagrams that wait to be given, and the terms by
//! which links belong together.
#![tactic(auto)]

pub mod deliveries;
pub mod head;
pub mod side;
pub mod sides;
pub mod terms;

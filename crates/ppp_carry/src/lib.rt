//! The posts that cross between a link and the table: all that wait, in their order, first up and then down.
//!
//! What one carrying makes of both stands in `specs/CarryPart.antt`; a link is known by the trait `Ends` alone. Here stands too what
//! follows of the table's definitions (`laws`).
#![tactic(auto)]

mod carrying;
pub mod laws;

pub use carrying::carry;

//! The whole of a router's links and units over versions of the outside in memory: what a step of a full trace does.
//!
//! The world keeps each errand that is out until a step of the trace lets it run, with the answer that the step gives it. It takes
//! dials, readings and scripts out by itself after each step. A step that is of another session, offset or job, or that names an
//! errand which isn't out, runs nothing. Nothing that the world holds grows with a run but the logs, whose room is reserved.
#![tactic(auto)]

mod out;
mod place;
mod units;
mod world;

pub use out::WorldOut;
pub use world::World;

//! A cluster over journals, which keeps the list of its events.
#![tactic(auto)]

mod fault;
mod heads;
mod opened;
mod opening;
mod reserved;
mod restarts;
mod steps;
mod world;

pub use fault::{StepFault, WorldFault};
pub use opening::Opening;
pub use world::World;

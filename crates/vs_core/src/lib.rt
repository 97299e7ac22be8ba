//! The machine of a cluster in memory: which events can happen, and what they do.
#![tactic(auto)]

mod answers;
mod arrivals;
mod asking;
mod asks;
mod boot;
mod changes;
mod coherence;
mod collecting;
mod commands;
mod cores;
mod dispatch;
mod failing;
mod fault;
mod garbage;
mod going_down;
mod keeping;
mod kinds;
mod laws;
mod locks;
mod moves;
mod opening;
mod pins;
mod posting;
mod receiving;
mod recordings;
mod records;
mod references;
mod replies;
mod reserves;
mod reserving;
mod restoring;
mod routes;
mod rows;
mod statuses;
mod transfers;
mod writes;

pub use boot::{new_shares, new_states};
pub use cores::Core;
pub use fault::{CoreFault, Placement};
pub use laws::safe_runs;
pub use records::Recording;

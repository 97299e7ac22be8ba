//! A cluster that actors run, as a lock keeps it: how calls were posted again, and how faults were numbered.
#![tactic(auto)]

mod cluster;
mod hints;
mod steering;
mod still;

pub use cluster::Cluster;

//! The drivers of a running cluster, which share it behind a lock: one of each client and each operator, and of each set one of
//! its service and one of its mover.
#![tactic(auto)]

mod client;
mod driver;
mod posting;
mod rounds;
mod standing;
mod turn;
mod turns;

pub use client::ClientDriver;
pub use driver::{Actor, DriveFault, Driver, drivers};
pub use rounds::drive;

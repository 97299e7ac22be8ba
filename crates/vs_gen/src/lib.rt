//! Work made from a number: two configurations, and scripts that move buckets while they are used.
#![tactic(auto)]

mod calls;
mod configs;
mod draws;
mod generated;
mod kind;
mod names;

pub use generated::{Generated, generate};

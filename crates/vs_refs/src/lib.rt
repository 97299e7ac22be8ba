//! How many calls are running at a set on each bucket, and locks against further ones.
#![tactic(auto)]

mod counts;
mod laws;
mod refs;

pub use counts::Counts;
pub use laws::references_are_counted;
pub use refs::{Locked, Refs};

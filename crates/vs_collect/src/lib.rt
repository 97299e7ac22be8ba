//! The deletion of a bucket that was sent to another set.
#![tactic(auto)]

mod collect;
mod unmet;

pub use collect::{condemn, forget, wipe_some};
pub use unmet::Unmet;

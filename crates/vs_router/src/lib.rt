//! Which set a client takes a bucket to be at: a cache that refusals correct.
#![tactic(auto)]

mod router;
mod said;

pub use router::{Known, Router};
pub use said::SetSaid;

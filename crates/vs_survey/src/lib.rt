//! What is read of a whole core: whether all is answered, whether it is at rest, and which buckets a set serves.
#![tactic(auto)]

mod serving;
mod settling;

pub use serving::{Ids, page, serves};
pub use settling::{finished, settled};

//! The history of a bucket: its opening rows, its writes and its reads, each with its answers and its place.
#![tactic(auto)]

mod entry;
mod history;

pub use entry::Entry;
pub use history::History;

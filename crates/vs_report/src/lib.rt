//! The report of a cluster: its state as a text, line by line.
#![tactic(auto)]

mod answers;
mod buckets;
mod clients;
mod histories;
mod lines;
mod operators;
mod ops;
mod outcomes;
mod reasons;
mod sets;
mod statuses;
mod text;
mod words;

pub use answers::put_answers;
pub use buckets::put_placement;
pub use reasons::put_reason;
pub use text::report;

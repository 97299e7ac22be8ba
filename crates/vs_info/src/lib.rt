//! What is told of a cluster while nothing runs in it: how many buckets each set has in each status, and what to look
//! after, as one line of JSON.
#![tactic(auto)]

mod alerts;
mod balance;
mod line;
mod summary;
mod values;

pub use line::info;

//! What an audit makes of the report of a cluster.
#![tactic(auto)]

mod laws;

pub use laws::{accounts_are_legal, reports_are_legal, reports_read_back};

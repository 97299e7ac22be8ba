//! How commands end: one line is logged, and a status is answered.
#![tactic(auto)]

mod lines;
mod log;

pub use lines::read_line;
pub use log::{log_bytes, log_line, log_memory, log_write};

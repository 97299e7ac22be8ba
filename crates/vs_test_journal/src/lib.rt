//! Tests of the disk, of a journal's bytes, its records, and their store.
#![tactic(auto)]

mod journals;
#[cfg(test)]
mod tests;

pub use journals::{FIRST, JOURNAL, NEVER, head};

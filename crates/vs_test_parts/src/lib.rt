//! Tests of the small machines of a set, a client and an operator, and of the rows, tables and sharings that they stand on.
#![tactic(auto)]

#[cfg(test)]
mod tests;
mod views;

pub use views::total;

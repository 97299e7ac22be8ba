//! A module for each crate that is tested.

mod pool;
mod words;

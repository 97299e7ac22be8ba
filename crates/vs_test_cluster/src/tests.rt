//! A module for each crate that is tested.

mod choose;
mod report;
mod settle;
mod survey;
mod top;

//! A module for each crate that is tested. What texts are refused with is told by cases, which the program is run over.

mod config;
mod event;
mod generated;
mod host;
mod inputs;
mod script;

//! A sorted map with room: its memory is taken ahead, so that changing it takes none.
#![tactic(auto)]

mod table;

pub use table::Table;

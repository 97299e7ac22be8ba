//! A module for each crate that is tested.

mod balance;
mod collect;
mod history;
mod link;
mod recover;
mod recv;
mod refs;
mod router;
mod rows;
mod send;
mod space;
mod table;
mod waves;

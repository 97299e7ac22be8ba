//! Routes of buckets from set to set.

use vs_base::{Items, SetNo};

/// How many buckets one set is to give another.
#[derive(Clone, Copy, PartialEq, Eq)]
pub struct Route {
    pub giver: SetNo,
    pub taker: SetNo,
    pub number: u32,
}

/// A list of routes.
pub type Routes = Items<Route>;

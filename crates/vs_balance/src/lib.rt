//! How many buckets each set is to have, and which sets give buckets to which.
#![tactic(auto)]

mod disbalance;
mod ideals;
mod member;
mod pairing;
mod route;
mod sharing;
mod view;

pub use disbalance::disbalanced;
pub use ideals::ideal;
pub use pairing::routes;
pub use route::{Route, Routes};
pub use view::SetView;

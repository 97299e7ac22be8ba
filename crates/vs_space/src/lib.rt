//! The status of a bucket at a set, and what sets say of it to one another and to clients.
#![tactic(auto)]

mod change;
mod counts;
mod grant;
mod reply;
mod search;
mod space;
mod status;

pub use change::{NotAllowed, may_change};
pub use grant::verdict;
pub use reply::{RecvFault, Reply};
pub use space::Space;
pub use status::{Cause, Status, StatusKind, Verdict};

//! The journal of a set: a file that stands for the set's entries and rows.
#![tactic(auto)]

mod fault;
mod laws;
mod replay;
mod store;
mod upgrade;

pub use fault::StoreFault;
pub use laws::meaning_laws;
pub use store::Store;

//! The events of a cluster, why one can't happen, and the one spelling of a list of them.
#![tactic(auto)]

mod buffer;
mod event;
mod fault;
mod fields;
mod piece;
mod read;
mod reason;
mod trace;
mod verb;
mod write;

pub use event::{Event, Recorded, RestartBy};
pub use fault::EventFault;
pub use piece::{Piece, pieces_of_events, write_piece};
pub use read::read_events;
pub use reason::Reason;
pub use trace::Trace;
pub use write::write_events;

//! The changes that a set writes to its journal.
#![tactic(auto)]

mod change;
mod fault;
mod fields;
mod read;
mod row_table;
mod set_state;
mod version;
mod write;

pub use change::Change;
pub use fault::RecordFault;
pub use read::read_change;
pub use row_table::RowTable;
pub use set_state::SetState;
pub use write::write_change;

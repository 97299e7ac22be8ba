//! The rows of a bucket, and operations on them.
#![tactic(auto)]

mod answer;
mod changes;
mod fault;
mod key;
mod name;
mod op;
mod ops;
mod page;
mod rows;
mod scan;
mod sorted;
mod staged;
mod val;

pub use answer::{Answer, Answers, copy_answers};
pub use changes::Changes;
pub use fault::RowFault;
pub use key::Key;
pub use name::{LONGEST_KEY, LONGEST_VALUE};
pub use op::Op;
pub use ops::Ops;
pub use page::Page;
pub use rows::Rows;
pub use staged::Staged;
pub use val::Val;

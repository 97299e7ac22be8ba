//! The command `audit`: whether the report in a file is legal.
#![tactic(auto)]

mod auditing;
mod fault;
mod fault_line;

pub use auditing::{audit_report, audit_text};
pub use fault::ReportFault;

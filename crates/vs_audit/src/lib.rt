//! The audit of a report: its account of histories and answers, read from the text alone, and
//! whether that is legal.
#![tactic(auto)]

mod account;
mod answer_word;
mod answers;
mod audit_text;
mod auditing;
mod call_lines;
mod doubles;
mod fault;
mod heads;
mod histories;
mod laws;
mod least;
mod line_fault;
mod line_kinds;
mod lines;
mod op_word;
mod ops;
mod order;
mod outcome_word;
mod places;
mod read;
mod same;
mod tail;
mod tally;
mod words;

pub use account::{
    Account, AuditEntries, AuditEntry, AuditHistories, AuditHistory, CallLine, CallLines,
    LineOutcome,
};
pub use audit_text::AuditText;
pub use auditing::audit;
pub use fault::{AuditFault, Illegal};
pub use laws::{call_numbers_tell_calls_apart, legal_accounts_keep_the_rules};
pub use read::read_report;

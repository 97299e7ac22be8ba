//! Tests of the audit, from the text of a report to what is wrong with it.
#![tactic(auto)]

#[cfg(test)]
mod tests;

//! Tests of what is read from texts and written as text, and of the hosts that hold them.
#![tactic(auto)]

#[cfg(test)]
mod tests;

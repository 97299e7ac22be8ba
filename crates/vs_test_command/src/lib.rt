//! Tests of which words are a command.
#![tactic(auto)]

#[cfg(test)]
mod tests;

//! Tests of the program's call on threads that a gate holds up, and on disks that fail while it runs.
#![tactic(auto)]

#[cfg(test)]
mod tests;

//! The places of inputs among the words after the command, from 1.

/// The place of the configuration.
pub const CONFIG_PLACE: u64 = 1;

/// The place of the events.
pub const EVENTS_PLACE: u64 = 2;

/// The place of the first script, behind the events.
pub const FIRST_SCRIPT_PLACE: u64 = 3;

/// The same where there are no events: behind the configuration.
pub const FIRST_RUN_SCRIPT_PLACE: u64 = 2;

//! What clients and operators have done.

use vs_balance::Routes;
use vs_base::Items;
use vs_calls::{CallState, Outcomes};
use vs_machine::CommandOutcome;
use vs_script::{Calls, Commands};

/// The outcomes of an operator's commands, in order.
pub type CommandOutcomes = Items<CommandOutcome>;

/// A client: its calls, what they were answered, and its present call.
#[derive(Drop)]
pub struct ClientTables {
    pub script: Calls,
    pub outcomes: Outcomes,
    pub present: CallState,
}

/// An operator: its commands, what they were answered, and how far its next one has come.
#[derive(Drop)]
pub struct OperatorTables {
    pub script: Commands,
    pub outcomes: CommandOutcomes,
    /// Whether the next command moves a bucket.
    pub moving: bool,
    /// How many rounds a `balance` command planned. It ends at 2^32 - 1.
    pub rounds: u32,
    /// What is left of the present round.
    pub routes: Routes,
    /// How many buckets the present round moved.
    pub moved: u64,
}

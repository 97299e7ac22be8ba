//! The state of a cluster in memory.

use crate::actors::{ClientTables, OperatorTables};
use crate::tables::SetTables;
use vs_config::Config;
use vs_history::History;
use vs_link::Links;

/// The state of a cluster. Sets, clients and operators stand in the order of their numbers, histories in that of the
/// buckets.
#[derive(Drop)]
pub struct State {
    pub config: Config,
    pub sets: Vec<SetTables>,
    pub links: Links,
    pub clients: Vec<ClientTables>,
    pub operators: Vec<OperatorTables>,
    pub histories: Vec<History>,
}

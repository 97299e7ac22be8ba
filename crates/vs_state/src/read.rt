//! How the state is read.

mod actors;
mod links;
mod moves;
mod sets;

ghost use Rattle.std.specs.Prelude.{◌≡◌, ◌≤◌, Some, None};
ghost use Rattle.std.specs.Option.{option_copied};
ghost use Rattle.vs_machine.specs.State as machine;
ghost use Rattle.vs_state.specs.Plain.{plain};
ghost use Rattle.vs_state.specs.Sized.{IsSized};
ghost use Rattle.vs_state.specs.Tables.{numbered};

use crate::actors::{ClientTables, OperatorTables};
use crate::state::State;
use crate::tables::SetTables;
use vs_base::{BucketId, ClientNo, OpNo, SetNo};

impl State {
    /// How many sets the cluster has.
    pub fn set_count(&self) -> u8
        requires { IsSized self.now }
        ensures count { result ≡ machine.sets_of (plain self.now) }
        ensures few { result ≤ 32 }
    {
        self.config.sets.len() as u8
    }

    pub fn has_set(&self, set: SetNo) -> bool
        ensures { result ≡ machine.has_set (plain self.now) set }
    {
        usize::from(set.get()) <= self.config.sets.len()
    }

    pub fn has_bucket(&self, bucket: BucketId) -> bool
        ensures { result ≡ machine.has_bucket (plain self.now) bucket }
    {
        bucket.get() <= self.config.bucket_count
    }

    pub fn has_client(&self, client: ClientNo) -> bool
        ensures { result ≡ machine.has_client (plain self.now) client }
    {
        usize::from(client.get()) <= self.clients.len()
    }

    pub fn has_operator(&self, operator: OpNo) -> bool
        ensures { result ≡ machine.has_operator (plain self.now) operator }
    {
        usize::from(operator.get()) <= self.operators.len()
    }

    /// What the set has, where it is of the cluster.
    pub fn set(&self, set: SetNo) -> Option<&SetTables>
        ensures { option_copied result ≡ numbered Some None self.now.sets.items set }
    {
        self.sets.get(usize::from(set.get()) - 1)
    }

    /// What the client did, where it is of the cluster.
    pub fn client(&self, client: ClientNo) -> Option<&ClientTables>
        ensures { option_copied result ≡ numbered Some None self.now.clients.items client }
    {
        self.clients.get(usize::from(client.get()) - 1)
    }

    /// What the operator did, where it is of the cluster.
    pub fn operator(&self, operator: OpNo) -> Option<&OperatorTables>
        ensures { option_copied result ≡ numbered Some None self.now.operators.items operator }
    {
        self.operators.get(usize::from(operator.get()) - 1)
    }
}

//! What clients and operators do next, and what they were answered.

ghost use Rattle.std.specs.Prelude.{◌≡◌, ◌==◌, true, option_map};
ghost use Rattle.std.specs.List.{list_all};
ghost use Rattle.std.specs.Option.{option_copied};
ghost use Rattle.vs_calls.specs.Outcomes.{outcomes};
ghost use Rattle.vs_calls.specs.State as calls_state;
ghost use Rattle.vs_history.specs.History.{write_count};
ghost use Rattle.vs_history.specs.Means as history;
ghost use Rattle.vs_script.specs.Calls.{call};
ghost use Rattle.vs_machine.specs.Kinds.Stops.{is_client_done, is_operator_done, is_finished};
ghost use Rattle.vs_machine.specs.State as machine;
ghost use Rattle.vs_machine.specs.Tables.{count_to};
ghost use Rattle.vs_state.specs.Plain.{plain, client, operator};
ghost use Rattle.vs_state.specs.Sized.{IsSized};

use crate::actors::{ClientTables, CommandOutcomes, OperatorTables};
use crate::state::State;
use vs_base::{BucketId, CallId, ClientNo, OpNo, SetNo};
use vs_calls::{CallState, Outcomes, Stage};
use vs_history::History;
use vs_script::{Call, Command};

impl ClientTables {
    /// The present call, or the one to be posted next.
    pub fn next_call(&self) -> Option<&Call>
        ensures { option_map call (option_copied result) ≡ machine.next_call (client self.now) }
    {
        self.script.get(self.outcomes.len())
    }

    /// Whether every call is answered.
    pub fn is_done(&self) -> bool
        ensures { result ≡ is_client_done (client self.now) }
    {
        self.script.len() == self.outcomes.len()
    }
}

impl OperatorTables {
    /// The command that is carried out next.
    pub fn next_command(&self) -> Option<&Command>
        ensures { option_copied result ≡ machine.next_command (operator self.now) }
    {
        self.script.get(self.outcomes.len())
    }

    /// Whether every command is answered.
    pub fn is_done(&self) -> bool
        ensures { result ≡ is_operator_done (operator self.now) }
    {
        self.script.len() == self.outcomes.len()
    }
}

// Every call of every client is answered.
fn all_clients_done(clients: &[ClientTables]) -> bool
    ensures { result ≡ list_all (λ c. is_client_done (client c)) clients.now }
{
    clients.iter().all(|client| client.is_done())
}

// Every command of every operator is answered.
fn all_operators_done(operators: &[OperatorTables]) -> bool
    ensures { result ≡ list_all (λ o. is_operator_done (operator o)) operators.now }
{
    operators.iter().all(|operator| operator.is_done())
}

impl State {
    /// The present call of a client, or the one to be posted next.
    pub fn next_call(&self, client: ClientNo) -> Option<&Call>
        ensures { option_map call (option_copied result) ≡ machine.next_call ((plain self.now).client client) }
    {
        self.client(client)?.next_call()
    }

    /// The stage of a client's present call.
    pub fn stage(&self, client: ClientNo) -> Stage
        ensures { result ≡ ((plain self.now).client client).present.stage }
    {
        match self.client(client) {
            Some(tables) => tables.present.stage(),
            None => Stage::Idle,
        }
    }

    /// How often a client's present call was posted.
    pub fn tries(&self, client: ClientNo) -> u8
        ensures { result ≡ ((plain self.now).client client).present.tries }
    {
        match self.client(client) {
            Some(tables) => tables.present.tries(),
            None => 0,
        }
    }

    /// The set that a client's present call was last posted to.
    pub fn call_set(&self, client: ClientNo) -> Option<SetNo>
        ensures { result ≡ ((plain self.now).client client).present.set }
    {
        self.client(client)?.present.set()
    }

    /// The name of a client's present call.
    pub fn call_id(&self, client: ClientNo) -> CallId
        requires { machine.has_client (plain self.now) client ≡ true }
        ensures { result ≡ machine.call_id client ((plain self.now).client client) }
    {
        CallId {
            client,
            call: self.call_state(client).number(),
        }
    }

    /// The number of writes of a bucket.
    pub fn writes(&self, bucket: BucketId) -> u64
        ensures { result ≡ write_count ((plain self.now).bucket bucket).history }
    {
        match self.histories.get(bucket.get() as usize - 1) {
            Some(history) => history.writes(),
            None => 0,
        }
    }

    /// How far the present call of a client has come.
    pub fn call_state(&self, client: ClientNo) -> &CallState
        requires { machine.has_client (plain self.now) client ≡ true }
        ensures { calls_state.means result.now ≡ ((plain self.now).client client).present }
    {
        &self.clients[usize::from(client.get()) - 1].present
    }

    /// What a client's calls were answered, in order.
    pub fn outcomes(&self, client: ClientNo) -> &Outcomes
        requires { machine.has_client (plain self.now) client ≡ true }
        ensures { outcomes result.now.items ≡ ((plain self.now).client client).answered }
    {
        &self.clients[usize::from(client.get()) - 1].outcomes
    }

    /// The command of an operator that is carried out next.
    pub fn next_command(&self, operator: OpNo) -> Option<&Command>
        ensures { option_copied result ≡ machine.next_command ((plain self.now).operator operator) }
    {
        self.operator(operator)?.next_command()
    }

    /// Whether a transfer is live that the operator's next command began.
    pub fn is_sending(&self, operator: OpNo) -> bool
        ensures { result ≡ ((plain self.now).operator operator).moving }
    {
        match self.operator(operator) {
            Some(tables) => tables.moving,
            None => false,
        }
    }

    /// What an operator's commands were answered, in order.
    pub fn command_outcomes(&self, operator: OpNo) -> &CommandOutcomes
        requires { machine.has_operator (plain self.now) operator ≡ true }
        ensures { result.now.items ≡ ((plain self.now).operator operator).answered }
    {
        &self.operators[usize::from(operator.get()) - 1].outcomes
    }

    /// The calls that acted on a bucket.
    pub fn history(&self, bucket: BucketId) -> &History
        requires sized { IsSized self.now }
        requires known { machine.has_bucket (plain self.now) bucket ≡ true }
        ensures { history.means result.now ≡ ((plain self.now).bucket bucket).history }
    {
        &self.histories[bucket.get() as usize - 1]
    }

    /// Whether every call and every command is answered.
    pub fn is_finished(&self) -> bool
        ensures { result ≡ is_finished (plain self.now) }
    {
        self.clients_done() && self.operators_done()
    }

    fn clients_done(&self) -> bool
        ensures { result ≡ (count_to (λ c. is_client_done ((plain self.now).client c)) (plain self.now).clients == (plain self.now).clients) }
    {
        all_clients_done(self.clients.as_slice())
    }

    fn operators_done(&self) -> bool
        ensures { result ≡ (count_to (λ o. is_operator_done ((plain self.now).operator o)) (plain self.now).operators == (plain self.now).operators) }
    {
        all_operators_done(self.operators.as_slice())
    }
}

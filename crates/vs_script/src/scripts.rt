//! The scripts of one run.

ghost use Rattle.std.specs.Prelude.{◌≡◌, ◌↔◌, map, IfOk, IsTrue};
ghost use Rattle.vs_script.specs.Calls.{calls};
ghost use Rattle.vs_script.specs.Scripts.{scripts};

use crate::call::{Calls, copy_calls, same_calls};
use crate::command::{Commands, copy_commands, same_commands};
use vs_base::{Items, NoMemory};

/// The calls of each client. The client of index 0 has number 1.
pub type ClientCalls = Items<Calls>;

/// The commands of each operator. The operator of index 0 has number 1.
pub type OperatorCommands = Items<Commands>;

/// The scripts of one run, by the numbers of their clients and operators.
#[derive(Drop)]
pub struct Scripts {
    pub clients: ClientCalls,
    pub operators: OperatorCommands,
}

fn copy_clients(given: &ClientCalls) -> Result<ClientCalls, NoMemory>
    ensures { IfOk result (λ copy.
        map (λ c. calls c.items) copy.items ≡ map (λ c. calls c.items) given.now.items) }
{
    let mut copy = ClientCalls::new(given.allocator());
    copy.reserve_many(given.len())?;
    for client in given.as_slice() {
        copy.push(copy_calls(given.allocator(), client)?);
    }
    Ok(copy)
}

fn copy_operators(given: &OperatorCommands) -> Result<OperatorCommands, NoMemory>
    ensures { IfOk result (λ copy.
        map (λ c. c.items) copy.items ≡ map (λ c. c.items) given.now.items) }
{
    let mut copy = OperatorCommands::new(given.allocator());
    copy.reserve_many(given.len())?;
    for operator in given.as_slice() {
        copy.push(copy_commands(given.allocator(), operator)?);
    }
    Ok(copy)
}

fn same_clients(some: &ClientCalls, others: &ClientCalls) -> bool
    ensures { IsTrue result
        ↔ (map (λ c. calls c.items) some.now.items ≡ map (λ c. calls c.items) others.now.items) }
{
    for (i, client) in some.as_slice().iter().enumerate() {
        let Some(other) = others.get(i) else {
            return false;
        };
        if !same_calls(client, other) {
            return false;
        }
    }
    some.len() == others.len()
}

fn same_operators(some: &OperatorCommands, others: &OperatorCommands) -> bool
    ensures { IsTrue result
        ↔ (map (λ c. c.items) some.now.items ≡ map (λ c. c.items) others.now.items) }
{
    for (i, operator) in some.as_slice().iter().enumerate() {
        let Some(other) = others.get(i) else {
            return false;
        };
        if !same_commands(operator, other) {
            return false;
        }
    }
    some.len() == others.len()
}

impl Scripts {
    /// Whether both have the same calls and commands, client by client and operator by operator. It takes no memory.
    pub fn equals(&self, other: &Scripts) -> bool
        ensures { IsTrue result ↔ (scripts self.now ≡ scripts other.now) }
    {
        same_clients(&self.clients, &other.clients)
            && same_operators(&self.operators, &other.operators)
    }

    /// Scripts that equal these.
    pub fn try_clone(&self) -> Result<Scripts, NoMemory>
        ensures { IfOk result (λ copy. scripts copy ≡ scripts self.now) }
    {
        let clients = copy_clients(&self.clients)?;
        let operators = copy_operators(&self.operators)?;
        Ok(Scripts { clients, operators })
    }
}

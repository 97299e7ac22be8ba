//! Scripts gathered for one run.

ghost use Rattle.std.specs.Prelude.{ℕ, ◌≡◌, ◌≢◌, ◌<◌, ◌≤◌, ◌^◌, ◌-◌, Ok, Err, map, length, slice_get, option_map, All, IfOk, IfErr};
ghost use Rattle.vs_script.specs.Gathering.{clients_in, count_of, cut_fault, cut_kind, cuts_fault, gathering_of, no_fault, numbered, tested};
ghost use Rattle.vs_script.specs.Lawful.{IsLawfulCall, IsLawfulCommand, IsLawfulScript, MayRunTogether};
ghost use Rattle.vs_script.specs.Scripts.{script, scripts};

use crate::command::Command;
use crate::gather_fault::{GatherFault, GatherKind};
use crate::limit::Limit;
use crate::script::Script;
use crate::scripts::{ClientCalls, OperatorCommands, Scripts};
use std::alloc::Global;
use vs_base::{ClientNo, NoMemory};

/// How many calls the client of this number has, if it is there.
fn call_count(given: &[Script], client: ClientNo) -> Option<usize>
    ensures { result ≡ option_map length (slice_get (clients_in (map script given.now)) (client - 1)) }
{
    let mut before = client.get() - 1;
    for one in given {
        if let Script::Client(calls) = one {
            if before == 0 {
                return Some(calls.len());
            }
            before -= 1;
        }
    }
    None
}

/// What a cut names isn't there.
fn kind_of_cut(given: &[Script], command: Command) -> Option<GatherKind>
    ensures { result ≡ cut_kind (clients_in (map script given.now)) command }
{
    match command {
        Command::Cut(client, call) => match call_count(given, client) {
            Some(calls) if call >= 1 && call as usize <= calls => None,
            Some(_) => Some(GatherKind::BadCall),
            None => Some(GatherKind::BadClient),
        },
        _ => None,
    }
}

/// The first bad cut of the commands of the script at this place.
fn bad_cut(given: &[Script], place: u32, commands: &[Command]) -> Option<GatherFault>
    requires { length commands.now ≤ 10000 }
    ensures { result ≡ cut_fault (clients_in (map script given.now)) place 1 commands.now }
{
    for (i, command) in commands.iter().enumerate() {
        if let Some(kind) = kind_of_cut(given, *command) {
            return Some(GatherFault::Bad {
                kind,
                script: place,
                item: i as u32 + 1,
            });
        }
    }
    None
}

/// Each cut names a call that there is.
fn test_cuts(given: &[Script]) -> Result<(), GatherFault>
    requires few { length given.now < 2 ^ 32 }
    requires few_commands { All (λ s. count_of Limit.Commands (script s) ≤ 10000) given.now }
    ensures { result ≡ no_fault (cuts_fault (clients_in (map script given.now)) 1 (map script given.now)) }
{
    for (i, one) in given.iter().enumerate() {
        if let Script::Operator(commands) = one {
            if let Some(fault) = bad_cut(given, i as u32 + 1, commands.as_slice()) {
                return Err(fault);
            }
        }
    }
    Ok(())
}

/// The scripts may run together.
fn test(given: &[Script]) -> Result<(), GatherFault>
    requires { length given.now < 2 ^ 32 }
    ensures { result ≡ tested (map script given.now) }
{
    Limit::Clients.test(given)?;
    Limit::Operators.test(given)?;
    Limit::Calls.test(given)?;
    Limit::Scans.test(given)?;
    Limit::Commands.test(given)?;
    test_cuts(given)
}

/// The scripts by the numbers of their clients and operators.
fn in_order(alloc: Global, given: Vec<Script>) -> Result<Scripts, NoMemory>
    ensures { IfOk result (λ s. scripts s ≡ numbered (map script given.items)) }
{
    let mut clients = ClientCalls::new(alloc);
    let mut operators = OperatorCommands::new(alloc);
    for one in given {
        match one {
            Script::Client(calls) => {
                clients.reserve()?;
                clients.push(calls);
            }
            Script::Operator(commands) => {
                operators.reserve()?;
                operators.push(commands);
            }
        }
    }
    Ok(Scripts { clients, operators })
}

/// Gathers scripts for one run: the clients and the operators are numbered from 1 in the order in
/// which their scripts are given, which are dropped where they can't run together.
///
/// The fault is the first of these: more than 64 clients, 16 operators, 200,000 calls, 20,000 scans
/// or 10,000 commands, each told with the script that passes the limit; then, in the order of
/// scripts and commands, a `cut` of a client or of a call that isn't there. 2^32 scripts or more
/// want memory.
pub fn gather(alloc: Global, given: Vec<Script>) -> Result<Scripts, GatherFault>
    // Clients and operators have their numbers by their order.
    ensures ok { IfOk result (λ s. gathering_of (map script given.items) ≡ Ok (scripts s)) }

    // The fault is the first.
    ensures fault { IfErr result (λ e. e ≢ GatherFault.NoMemory
        → gathering_of (map script given.items) ≡ Err e) }

    // They may run together.
    ensures together { IfOk result (λ s. MayRunTogether (scripts s)) }

    // What is lawful in each script is lawful in all.
    ensures lawful { IfOk result (λ s. (m n : ℕ) → All (IsLawfulScript m n) (map script given.items)
        → All (All (IsLawfulCall m)) (scripts s).clients
        × All (All (IsLawfulCommand m n)) (scripts s).operators) }
{
    if given.len() > u32::MAX as usize {
        return Err(GatherFault::NoMemory);
    }
    test(&given)?;
    let gathered = in_order(alloc, given)?;
    Ok(gathered)
}

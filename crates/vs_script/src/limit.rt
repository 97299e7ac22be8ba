//! The limits of all scripts together.

ghost use Rattle.std.specs.Prelude.{◌≡◌, ◌≤◌, ◌<◌, ◌-◌, ◌^◌, length, map};
ghost use Rattle.std.specs.Option.{SomeIff};
ghost use Rattle.vs_script.specs.Calls.{call, calls};
ghost use Rattle.vs_script.specs.Gathering.{count_of, first_above, kind_of, limit_fault, most_of, no_fault};
ghost use Rattle.vs_script.specs.Lawful.{is_scan, scans_in};
ghost use Rattle.vs_script.specs.Scripts.{script};
ghost use Rattle.std.specs.List.{count_by};

use crate::call::Call;
use crate::gather_fault::{GatherFault, GatherKind};
use crate::script::Script;
use vs_rows::Op;

/// What there may not be too many of in all scripts.
#[derive(Clone, Copy)]
pub(crate) enum Limit {
    Clients,
    Operators,
    Calls,
    Scans,
    Commands,
}

fn scans(ops: &[Op]) -> usize
    ensures { result ≡ count_by is_scan ops.now }
{
    ops.iter().filter(|op| matches!(op, Op::Scan(..))).count()
}

/// What calls leave of so many scans, where it is enough.
fn scans_left(given: &[Call], most: u64) -> Option<u64>
    ensures { SomeIff result (scans_in (calls given.now) ≤ most)
        (most - scans_in (calls given.now)) }
{
    let mut left = most;
    for call in given {
        left = left.checked_sub(scans(call.ops.as_slice()) as u64)?;
    }
    Some(left)
}

impl Limit {
    fn most(self) -> u64
        ensures { result ≡ most_of self }
    {
        match self {
            Limit::Clients => 64,
            Limit::Operators => 16,
            Limit::Calls => 200_000,
            Limit::Scans => 20_000,
            Limit::Commands => 10_000,
        }
    }

    fn kind(self) -> GatherKind
        ensures { result ≡ kind_of self }
    {
        match self {
            Limit::Clients => GatherKind::TooManyClients,
            Limit::Operators => GatherKind::TooManyOperators,
            Limit::Calls => GatherKind::TooManyCalls,
            Limit::Scans => GatherKind::TooManyScans,
            Limit::Commands => GatherKind::TooManyCommands,
        }
    }

    /// What a script leaves of so many, where it is enough.
    fn left(self, given: &Script, most: u64) -> Option<u64>
        ensures { SomeIff result (count_of self (script given.now) ≤ most)
            (most - count_of self (script given.now)) }
    {
        match (self, given) {
            (Limit::Clients, Script::Client(_)) => most.checked_sub(1),
            (Limit::Operators, Script::Operator(_)) => most.checked_sub(1),
            (Limit::Calls, Script::Client(calls)) => most.checked_sub(calls.len() as u64),
            (Limit::Scans, Script::Client(calls)) => scans_left(calls.as_slice(), most),
            (Limit::Commands, Script::Operator(commands)) => {
                most.checked_sub(commands.len() as u64)
            }
            _ => Some(most),
        }
    }

    /// The number of the first script that passes the limit.
    fn passed_by(self, given: &[Script]) -> Option<u32>
        requires { length given.now < 2 ^ 32 }
        ensures { result ≡ first_above self (most_of self) 1 (map script given.now) }
    {
        let mut left = self.most();
        for (i, one) in given.iter().enumerate() {
            match self.left(one, left) {
                Some(rest) => left = rest,
                None => return Some(i as u32 + 1),
            }
        }
        None
    }

    /// The scripts don't pass the limit.
    pub(crate) fn test(self, given: &[Script]) -> Result<(), GatherFault>
        requires { length given.now < 2 ^ 32 }
        ensures { result ≡ no_fault (limit_fault self (map script given.now)) }
    {
        match self.passed_by(given) {
            Some(number) => Err(GatherFault::Bad {
                kind: self.kind(),
                script: number,
                item: 0,
            }),
            None => Ok(()),
        }
    }
}

//! What a number generates.

ghost use Rattle.std.specs.Prelude.{◌≡◌, ◌∷◌, [], length, map, All, IfOk};
ghost use Rattle.vs_config.specs.Configuration.{configuration};
ghost use Rattle.vs_config.specs.Lawful.{IsLawful};
ghost use Rattle.vs_script.specs.Lawful.{IsLawfulCall, IsLawfulCommand, MayRunTogether};
ghost use Rattle.vs_script.specs.Scripts.{scripts};
ghost use Rattle.vs_gen.specs.Generated.{first_configuration, second_configuration, scripts_of};

use crate::calls::clients;
use crate::configs::config;
use std::alloc::Global;
use vs_base::NoMemory;
use vs_config::Config;
use vs_script::{Command, Commands, OperatorCommands, Scripts};

/// Work for a cluster: scripts that run while its buckets move from where one configuration has
/// them to where the other wants them.
#[derive(Drop)]
pub struct Generated {
    /// The configuration by which the cluster is made, with four sets of the same weight.
    pub first: Config,
    /// The configuration by which the scripts run, in which the first set has twice the weight.
    pub second: Config,
    /// Eight clients with 2,500 calls each, and an operator that balances.
    pub scripts: Scripts,
}

/// The scripts of the operators: one, with the command `balance`.
fn operators(alloc: Global) -> Result<OperatorCommands, NoMemory>
    ensures { IfOk result (λ operators.
        map (λ c. c.items) operators.items ≡ (Command.Balance ∷ []) ∷ []) }
{
    let mut commands = Commands::new(alloc);
    commands.reserve()?;
    commands.push(Command::Balance);
    let mut operators = OperatorCommands::new(alloc);
    operators.reserve()?;
    operators.push(commands);
    Ok(operators)
}

/// The work of this number: the same at each call.
pub fn generate(alloc: Global, number: u32) -> Result<Generated, NoMemory>
    ensures first { IfOk result (λ g. configuration g.first ≡ first_configuration) }
    ensures second { IfOk result (λ g. configuration g.second ≡ second_configuration) }
    ensures scripts { IfOk result (λ g. scripts g.scripts ≡ scripts_of number) }

    // A cluster may be told either configuration, and may run the scripts.
    ensures configurations { IfOk result (λ g.
        IsLawful (configuration g.first) × IsLawful (configuration g.second)) }
    ensures together { IfOk result (λ g. MayRunTogether (scripts g.scripts)) }
    ensures calls { IfOk result (λ g.
        All (All (IsLawfulCall g.second.bucket_count)) (scripts g.scripts).clients) }
    ensures commands { IfOk result (λ g.
        All (All (IsLawfulCommand g.second.bucket_count (length g.second.sets.items)))
        (scripts g.scripts).operators) }
{
    let first = config(alloc, 1)?;
    let second = config(alloc, 2)?;
    let clients = clients(alloc, number, 8, 2_500)?;
    let operators = operators(alloc)?;
    Ok(Generated {
        first,
        second,
        scripts: Scripts { clients, operators },
    })
}

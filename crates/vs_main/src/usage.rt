//! Words that are no command.

ghost use Rattle.std.specs.Prelude.{◌≡◌, ◌⊎◌};
ghost use Rattle.vs_command.specs.Usage.{usage};
ghost use Rattle.vs_ending.specs.Ending.{OnlyLogs};
ghost use Rattle.vs_ending.specs.Lines.{memory_line};

use std::alloc::Global;
use vs_base::{Items, NoMemory};
use vs_command::{BUILT, LONGEST_USAGE, put_usage};
use vs_ending::{log_bytes, log_memory};
use vs_host::Host;

/// The status of words that are no command.
const NO_COMMAND: u8 = 2;

/// Logs which words are commands, and answers the status of words that aren't.
pub fn log_usage<H: Host>(alloc: Global, host: &mut H) -> u8
    ensures { ((result ≡ 2) × OnlyLogs (usage BUILT) (H.told host.old) (H.told host.new))
        ⊎ ((result ≡ 9) × OnlyLogs memory_line (H.told host.old) (H.told host.new)) }
{
    let mut line = Items::new(alloc);
    match line.reserve_many(LONGEST_USAGE) {
        Ok(()) => {
            put_usage(&mut line, BUILT);
            log_bytes(host, line.as_slice());
            NO_COMMAND
        }
        Err(NoMemory) => log_memory(host),
    }
}

//! The line of a command's end is logged.

ghost use Rattle.std.specs.Prelude.{◌≡◌, MatchResult};
ghost use Rattle.vs_ending.specs.Ending.{OnlyLogs};
ghost use Rattle.vs_ending.specs.Lines.{memory_line, write_line};

use vs_base::NoMemory;
use vs_host::Host;

const MEMORY: &[u8] = b"vshard: memory\n";

const WRITE: &[u8] = b"vshard: write\n";

/// Logs a line that is there already, with its line feed.
pub fn log_bytes<H: Host>(host: &mut H, line: &[u8])
    ensures { OnlyLogs line.now (H.told host.old) (H.told host.new) }
{
    let _ = host.log(line);
}

/// Logs that memory was refused, and answers the status of that.
pub fn log_memory<H: Host>(host: &mut H) -> u8
    ensures status { result ≡ 9 }
    ensures line { OnlyLogs memory_line (H.told host.old) (H.told host.new) }
{
    log_bytes(host, MEMORY);
    9
}

/// Logs that a write failed, and answers the status of that.
pub fn log_write<H: Host>(host: &mut H) -> u8
    ensures status { result ≡ 6 }
    ensures line { OnlyLogs write_line (H.told host.old) (H.told host.new) }
{
    log_bytes(host, WRITE);
    6
}

/// Logs a line, and answers its status. Where there was no memory for the line, that is told in its place.
pub fn log_line<H: Host>(host: &mut H, line: Result<Vec<u8>, NoMemory>, status: u8) -> u8
    ensures { MatchResult line
        (λ line. (result ≡ status) × OnlyLogs line.items (H.told host.old) (H.told host.new))
        (λ _. (result ≡ 9) × OnlyLogs memory_line (H.told host.old) (H.told host.new)) }
{
    match line {
        Ok(line) => {
            log_bytes(host, &line);
            status
        }
        Err(NoMemory) => log_memory(host),
    }
}

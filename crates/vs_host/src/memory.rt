//! A host in memory.

ghost use Rattle.std.specs.Prelude.{◌≡◌, [], Some, true};
ghost use Rattle.vs_host.specs.Calls.{Puts};
ghost use Rattle.vs_host.specs.Files.{file_of};

use crate::fault::{HostFailed, HostRead};
use crate::host::Host;
use crate::named_file::{NamedFile, find};
use std::alloc::Global;
use vs_base::raised;

/// A host in memory: named files, the texts that were put out and logged, and the numbers of the
/// calls that are to fail.
///
/// Its calls are counted from 1, those of `read`, `out` and `log` together. A call of `out` or `log`
/// that is to fail takes the first half of its bytes.
#[derive(Drop)]
pub struct MemHost {
    files: Vec<NamedFile>,
    out: Vec<u8>,
    log: Vec<u8>,
    failing: Vec<u64>,
    calls: u64,
    taken: u64,
    read_faults: u64,
    write_faults: u64,
}

/// Adds bytes to a text, or the first half of them where the call is to fail.
fn put(text: &mut Vec<u8>, bytes: &[u8], fails: bool) -> Result<(), HostFailed>
    ensures { Puts bytes.now (Some text.old.items) (Some text.new.items) result }
{
    let bytes = if fails {
        &bytes[..bytes.len() / 2]
    } else {
        bytes
    };
    match text.extend_from_slice(bytes) {
        Ok(()) if !fails => Ok(()),
        _ => Err(HostFailed),
    }
}

/// Counts a call, and tells whether it is to fail.
fn is_to_fail(calls: &mut u64, failing: &[u64]) -> bool {
    *calls = calls.saturating_add(1);
    failing.contains(calls)
}

impl MemHost {
    ghost use Rattle.vs_host.specs.Memory.{told_in_memory};

    /// A host of these files. Nothing was put out or logged, and no call has failed.
    pub fn new(alloc: Global, files: Vec<NamedFile>, failing: Vec<u64>) -> MemHost
        ensures files { (told_in_memory result).file ≡ file_of files.items }
        ensures out { (told_in_memory result).out ≡ Some [] }
        ensures log { (told_in_memory result).log ≡ Some [] }
        ensures read_faults { (told_in_memory result).read_faults ≡ 0 }
        ensures write_faults { (told_in_memory result).write_faults ≡ 0 }
    {
        MemHost {
            files,
            out: Vec::new(alloc),
            log: Vec::new(alloc),
            failing,
            calls: 0,
            taken: 0,
            read_faults: 0,
            write_faults: 0,
        }
    }

    /// What was put out.
    pub fn put_out(&self) -> &[u8]
        ensures { (told_in_memory self.now).out ≡ Some result.now }
    {
        &self.out
    }

    /// What was logged.
    pub fn logged(&self) -> &[u8]
        ensures { (told_in_memory self.now).log ≡ Some result.now }
    {
        &self.log
    }
}

impl Host for MemHost {
    ghost use Rattle.vs_host.specs.Memory.{told_in_memory};

    ghost told = { told_in_memory };

    fn read(&mut self, name: &str, limit: u64) -> Result<Vec<u8>, HostRead> {
        if is_to_fail(&mut self.calls, &self.failing) {
            self.read_faults = raised(self.read_faults);
            return Err(HostRead::Failed);
        }
        match find(&self.files, name) {
            None => {
                self.read_faults = raised(self.read_faults);
                Err(HostRead::Failed)
            }
            Some(file) => {
                self.taken = file.bytes.len() as u64;
                if self.taken > limit {
                    return Err(HostRead::TooLong);
                }
                match file.bytes.clone() {
                    Ok(bytes) => Ok(bytes),
                    Err(_) => Err(HostRead::NoMemory),
                }
            }
        }
    }

    fn out(&mut self, bytes: &[u8]) -> Result<(), HostFailed> {
        let fails = is_to_fail(&mut self.calls, &self.failing);
        let result = put(&mut self.out, bytes, fails);
        if result.is_err() {
            self.write_faults = raised(self.write_faults);
        }
        result
    }

    fn log(&mut self, bytes: &[u8]) -> Result<(), HostFailed> {
        let fails = is_to_fail(&mut self.calls, &self.failing);
        let result = put(&mut self.log, bytes, fails);
        if result.is_err() {
            self.write_faults = raised(self.write_faults);
        }
        result
    }
}

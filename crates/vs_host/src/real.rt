//! The real host.

ghost use Rattle.std.specs.Prelude.{◌≡◌};

use crate::fault::{HostFailed, HostRead};
use crate::host::Host;
use std::alloc::Global;
use std::fs;
use std::io::{Read, Write};
use std::rt::Files;
use vs_base::raised;

/// How many bytes one call of the system may read.
const PIECE: usize = 64 * 1024;

/// Files, an output and a log of the system. It counts its faults, and tells nothing of content.
#[derive(Drop)]
pub struct RealHost<R: Files + Drop, O: Write + Drop, E: Write + Drop> {
    alloc: Global,
    files: R,
    output: O,
    errors: E,
    taken: u64,
    read_faults: u64,
    write_faults: u64,
}

impl<R: Files + Drop, O: Write + Drop, E: Write + Drop> RealHost<R, O, E> {
    ghost use Rattle.vs_host.specs.Real.{told_of_system};

    /// A host over these files, this output and this log. No call has failed.
    pub fn new(alloc: Global, files: R, output: O, errors: E) -> RealHost<R, O, E>
        ensures read_faults { (told_of_system result).read_faults ≡ 0 }
        ensures write_faults { (told_of_system result).write_faults ≡ 0 }
    {
        RealHost {
            alloc,
            files,
            output,
            errors,
            taken: 0,
            read_faults: 0,
            write_faults: 0,
        }
    }
}

/// Writes all the bytes. It fails at an error, and where nothing of a piece is taken.
fn write_whole<W: Write>(writer: &mut W, bytes: &[u8]) -> Result<(), HostFailed> {
    let mut rest = bytes;
    while !rest.is_empty() {
        match writer.write(rest) {
            Ok(count) if count > 0 => rest = &rest[count..],
            _ => return Err(HostFailed),
        }
    }
    match writer.flush() {
        Ok(()) => Ok(()),
        Err(_) => Err(HostFailed),
    }
}

/// Reads to the end, or past `limit` bytes.
fn read_whole<F: Read>(alloc: Global, file: &mut F, limit: u64) -> Result<Vec<u8>, HostRead> {
    let Ok(mut piece) = vec![in alloc; 0; PIECE] else {
        return Err(HostRead::NoMemory);
    };
    let mut bytes = Vec::new(alloc);
    while bytes.len() as u64 <= limit {
        match file.read(&mut piece) {
            Ok(0) => return Ok(bytes),
            Ok(count) => {
                if bytes.extend_from_slice(&piece[..count]).is_err() {
                    return Err(HostRead::NoMemory);
                }
            }
            Err(_) => return Err(HostRead::Failed),
        }
    }
    Ok(bytes)
}

impl<R: Files + Drop, O: Write + Drop, E: Write + Drop> Host for RealHost<R, O, E> {
    ghost use Rattle.vs_host.specs.Real.{told_of_system};

    ghost told = { told_of_system };

    fn read(&mut self, name: &str, limit: u64) -> Result<Vec<u8>, HostRead> {
        let result = match fs::open(&self.files, name) {
            Ok(mut file) => read_whole(self.alloc, &mut file, limit),
            Err(_) => Err(HostRead::Failed),
        };
        match result {
            Ok(bytes) => {
                self.taken = bytes.len() as u64;
                if self.taken > limit {
                    Err(HostRead::TooLong)
                } else {
                    Ok(bytes)
                }
            }
            Err(HostRead::Failed) => {
                self.read_faults = raised(self.read_faults);
                Err(HostRead::Failed)
            }
            Err(_) => Err(HostRead::NoMemory),
        }
    }

    fn out(&mut self, bytes: &[u8]) -> Result<(), HostFailed> {
        let result = write_whole(&mut self.output, bytes);
        if result.is_err() {
            self.write_faults = raised(self.write_faults);
        }
        result
    }

    fn log(&mut self, bytes: &[u8]) -> Result<(), HostFailed> {
        let result = write_whole(&mut self.errors, bytes);
        if result.is_err() {
            self.write_faults = raised(self.write_faults);
        }
        result
    }
}

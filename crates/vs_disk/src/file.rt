//! A disk over a real file. It tells nothing of content.

ghost use Rattle.std.specs.Prelude.{◌≡◌, ◌≤◌, [], false, is_some};
ghost use Rattle.std.proofs.Common.{refl};
ghost use Rattle.vs_base.specs.Faults.{Rose};
ghost use Rattle.vs_disk.specs.Laws.{untold};

use crate::disk::{Disk, DiskFailed, DiskOpen};
use std::fs::{File, OpenFile, OpenOptions};
use std::io;
use std::os::unix::fs::FileExt;
use std::path::Path;
use std::rt::Files;
use vs_base::{NoMemory, raised};

/// A disk over one file. Each error of the system is a fault, and so is a write that takes nothing
/// of a piece. As long as it is open it has the lock of its file, which the system lets go where the
/// disk is dropped or the program ends. `open` is refused, and leaves the file as it is, where
/// another disk has that lock, in this program or in another one.
#[derive(Drop)]
pub struct FileDisk<R: Files<File = File> + Drop> {
    rt: R,
    path: String,
    file: Option<File>,
    room: u64,
    faults: u64,
}

// Syncs the folder of a file, so that a crash leaves the file in it.
fn sync_folder<R: Files<File = File>>(rt: &R, path: &str) -> io::Result<()> {
    let folder = match Path::new(path).parent() {
        Some(folder) if !folder.as_str().is_empty() => folder,
        _ => Path::new("."),
    };
    File::open(rt, folder)?.sync_all()
}

// Opens a file, which is made where it isn't there, and takes its lock. The folder is synced each
// time, since who made the file may have ended before that.
fn locked_file<R: Files<File = File>>(rt: &R, path: &str) -> io::Result<File> {
    let file = OpenOptions::new()
        .read(true)
        .write(true)
        .create(true)
        .open(rt, path)?;
    file.try_lock()?;
    sync_folder(rt, path)?;
    Ok(file)
}

impl<R: Files<File = File> + Drop> FileDisk<R> {
    /// A disk over the file of this path. It isn't open.
    pub fn new(rt: R, path: String) -> FileDisk<R>
        ensures shut { (⟦<FileDisk<R> as Disk>⟧.told result).is_open ≡ false }
        ensures faults { (⟦<FileDisk<R> as Disk>⟧.told result).faults ≡ 0 }
    {
        FileDisk {
            rt,
            path,
            file: None,
            room: 0,
            faults: 0,
        }
    }

    // One more fault.
    fn fail(&mut self) -> DiskFailed
        ensures rose { Rose self.old.faults self.new.faults }
        ensures later { self.old.faults ≤ self.new.faults }
        ensures file { is_some self.new.file ≡ is_some self.old.file }
        ensures room { self.new.room ≡ self.old.room }
    {
        self.faults = raised(self.faults);
        DiskFailed
    }
}

impl<R: Files<File = File> + Drop> Disk for FileDisk<R> {
    ghost told = { λ d. record {
      is_open = is_some d.file;
      tells_reads = false;
      is_honest = false;
      reads_as = [];
      may_leave = λ c. ⊥;
      moment = 0;
      left_since = λ t c. ⊥;
      reserved = d.room;
      faults = d.faults;
    } };

    ghost lawful = { λ d. untold _ refl };

    fn faults(&self) -> u64 {
        self.faults
    }

    fn open(&mut self) -> Result<(), DiskOpen> {
        if self.file.is_some() {
            return Ok(());
        }
        match locked_file(&self.rt, self.path.as_str()) {
            Ok(file) => {
                self.file = Some(file);
                Ok(())
            }
            Err(_) => {
                let DiskFailed = self.fail();
                Err(DiskOpen::Failed)
            }
        }
    }

    fn reserve(&mut self, len: u64) -> Result<(), NoMemory> {
        self.room = self.room.max(len);
        Ok(())
    }

    fn len(&mut self) -> Result<u64, DiskFailed> {
        let found = match &self.file {
            Some(file) => file.metadata(),
            None => unreachable!(),
        };
        match found {
            Ok(metadata) => Ok(metadata.len()),
            Err(_) => Err(self.fail()),
        }
    }

    fn read(&mut self, at: u64, into: &mut [u8]) -> Result<usize, DiskFailed> {
        let mut done = 0;
        while done < into.len() {
            let got = match &self.file {
                Some(file) => file.read_at(&mut into[done..], at.saturating_add(done as u64)),
                None => unreachable!(),
            };
            match got {
                Ok(0) => return Ok(done),
                Ok(n) => done += n,
                Err(_) => return Err(self.fail()),
            }
        }
        Ok(done)
    }

    fn write_at(&mut self, at: u64, bytes: &[u8]) -> Result<(), DiskFailed> {
        let mut done = 0;
        while done < bytes.len() {
            let put = match &self.file {
                Some(file) => file.write_at(&bytes[done..], at + done as u64),
                None => unreachable!(),
            };
            match put {
                Ok(0) => return Err(self.fail()),
                Ok(n) => done += n,
                Err(_) => return Err(self.fail()),
            }
        }
        Ok(())
    }

    fn sync(&mut self) -> Result<(), DiskFailed> {
        let done = match &self.file {
            Some(file) => file.sync_data(),
            None => unreachable!(),
        };
        match done {
            Ok(()) => Ok(()),
            Err(_) => Err(self.fail()),
        }
    }
}

//! Disks are made ready.

ghost use Rattle.std.specs.Prelude.{◌≡◌, ◌↔◌, ◌<◌, ◌≤◌, ◌+◌, [], length, IsTrue, IfOk, IfErr, OnOk};
ghost use Rattle.std.specs.Result.{IsErrOf};
ghost use Rattle.vs_disk.specs.Told.{IsOpen, Failed, Reads};
ghost use Rattle.vs_frame.specs.Unwritten.{IsUnwritten};
ghost use Rattle.vs_stores.specs.OpenedStores.{AreReady, AreEmpty, AreUnwritten, HasFailed};

use crate::fault::OpenFault;
use vs_base::SetNo;
use vs_disk::{Disk, DiskOpen};
use vs_store::StoreFault;

// Opens a disk, and tells whether its length is 0.
fn open_disk<D: Disk + Drop>(disk: &mut D) -> Result<bool, DiskOpen>
    ensures open { OnOk result (IsOpen (D.told disk.new)) }
    ensures empty { IfOk result (λ empty. Reads (D.told disk.new) (λ file.
        IsTrue empty ↔ (file ≡ []))) }
    ensures unwritten { IsUnwritten (D.told disk.old) (D.told disk.new) }
    ensures failed { IsErrOf result DiskOpen.Failed → Failed (D.told disk.old) (D.told disk.new) }
{
    disk.open()?;
    match disk.len() {
        Ok(len) => Ok(len == 0),
        Err(_) => Err(DiskOpen::Failed),
    }
}

/// The number of the set at a place, which counts from 0.
pub fn number_at(i: usize) -> SetNo
    requires { i < 32 }
    ensures { result ≡ i + 1 }
{
    match SetNo::new(i as u8 + 1) {
        Some(set) => set,
        None => unreachable!(),
    }
}

/// The place of a set, which counts from 0.
pub fn place_of(set: SetNo) -> usize
    ensures { result + 1 ≡ set }
{
    usize::from(set.get()) - 1
}

/// Opens the disks of so many sets, set 1 first, and tells whether the length of each is 0, so that
/// all their journals are new.
pub fn make_ready<D: Disk + Drop>(disks: &mut Vec<D>, sets: usize) -> Result<bool, OpenFault>
    requires within { sets ≤ length disks.old.items }
    requires few { sets ≤ 32 }
    ensures ready { OnOk result (AreReady D.told sets disks.new.items) }
    ensures empty { IfOk result (AreEmpty D.told sets disks.new.items) }
    ensures unwritten { AreUnwritten D.told sets disks.old.items disks.new.items }
    ensures failed { IfErr result (HasFailed D.told sets disks.old.items disks.new.items) }
{
    let mut are_empty = true;
    for i in 0..sets {
        let disk = &mut disks[i];
        match open_disk(disk) {
            Ok(is_empty) => are_empty = are_empty && is_empty,
            Err(DiskOpen::Failed) => {
                return Err(OpenFault::OfSet(number_at(i), StoreFault::DiskFault));
            }
            Err(DiskOpen::NoMemory) => return Err(OpenFault::NoMemory),
        }
    }
    Ok(are_empty)
}

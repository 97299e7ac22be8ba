//! The journal of a set that was read, in its last version.

ghost use Rattle.std.specs.Prelude.{◌≡◌, ◌+◌, ◌<◌, ◌≤◌, ◌==◌, ℕ, if◌then◌else◌, IfErr, OnOk};
ghost use Rattle.std.specs.Result.{IsErrOf};
ghost use Rattle.vs_disk.specs.Told.{Failed, Reads, IsSynced};
ghost use Rattle.vs_disk.specs.Model.{Keeps, LeavesThrough};
ghost use Rattle.vs_frame.specs.Frame.{told_of, version_of, gate_of, last_of, next_of, IsReady, IsAtEndOf};
ghost use Rattle.vs_frame.specs.Journal.{Journal, migrated, IsJournal, IsOldOrMigrated};
ghost use Rattle.vs_frame.specs.Unwritten.{IsUnwritten};
ghost use Rattle.vs_store.specs.Faults.{IsOfAppend};

use crate::fault::StoreFault;
use vs_disk::Disk;
use vs_frame::Frame;

// Writes a journal of version 1 as one of version 2, where the limit allows that. One of version 2
// stays as it is.
pub fn upgrade<D: Disk + Drop>(frame: &mut Frame<D>, limit: u64) -> Result<(), StoreFault>
    requires ready { IsReady frame.old }
    requires none { next_of frame.old ≡ last_of frame.old }
    requires level { last_of frame.old ≡ gate_of frame.old }

    ensures ready { OnOk result (IsReady frame.new × (version_of frame.new ≡ 2)) }
    ensures none { OnOk result (next_of frame.new ≡ last_of frame.new) }
    ensures level { OnOk result (last_of frame.new ≡ gate_of frame.new) }
    ensures second { version_of frame.old ≡ 2 → frame.new ≡ frame.old }
    ensures gate { version_of frame.old ≡ 1 → OnOk result
        (gate_of frame.new ≡ gate_of frame.old + 1) }
    ensures migrated { version_of frame.old ≡ 1 → OnOk result
        (Reads (told_of frame.old) (λ file. (j : Journal) → IsJournal file j
        → IsAtEndOf frame.old j → IsJournal (told_of frame.new).reads_as (migrated j))) }
    ensures durable { OnOk result (IsSynced (told_of frame.old) → IsSynced (told_of frame.new)) }

    // At every moment a crash leaves the same bodies.
    ensures any_moment { version_of frame.old ≡ 1 → (j : Journal)
        → IsJournal (told_of frame.old).reads_as j → IsAtEndOf frame.old j
        → LeavesThrough (told_of frame.old) (told_of frame.new) (IsOldOrMigrated j) }
    ensures reads { version_of frame.old ≡ 1 → Reads (told_of frame.old) (λ file. (j : Journal)
        → IsJournal file j → IsAtEndOf frame.old j
        → IsOldOrMigrated j (told_of frame.new).reads_as) }

    ensures full { (len : ℕ) → IsErrOf result (StoreFault.Full len) → (version_of frame.old ≡ 1)
        × (len ≡ gate_of frame.old + 2) × (limit < len) × (frame.new ≡ frame.old) }
    ensures room { OnOk result (version_of frame.old ≡ 1 → gate_of frame.old + 2 ≤ limit) }
    ensures memory { IsErrOf result StoreFault.NoMemory
        → IsUnwritten (told_of frame.old) (told_of frame.new) }
    ensures fault { IsErrOf result StoreFault.DiskFault
        → Failed (told_of frame.old) (told_of frame.new) }
    ensures cause { IfErr result IsOfAppend }
    ensures keeps { Keeps (told_of frame.old) (told_of frame.new) }
{
    if frame.version() == 2 {
        return Ok(());
    }
    let Some(len) = frame.gate().checked_add(2) else {
        return Err(StoreFault::NoMemory);
    };
    if len > limit {
        return Err(StoreFault::Full(len));
    }
    frame.migrate()?;
    Ok(())
}

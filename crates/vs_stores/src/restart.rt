//! The journal of one set at a restart.

ghost use Rattle.std.specs.Prelude.{◌≡◌, ◌<◌, ℕ, None, Some, OnOk, OnErr};
ghost use Rattle.std.specs.Result.{IsErrOf};
ghost use Rattle.vs_disk.specs.Told.{Failed};
ghost use Rattle.vs_disk.specs.Model.{Keeps, LeavesThrough};
ghost use Rattle.vs_frame.specs.declared.head.Head as head;
ghost use Rattle.vs_record.specs.Body.{HasCounts};
ghost use Rattle.vs_record.specs.Change as plain;
ghost use Rattle.vs_record.specs.Change.{change as plain_of};
ghost use Rattle.vs_record.specs.Durable.{Durable, applied};
ghost use Rattle.vs_store.specs.Files.{StandsForSome};
ghost use Rattle.vs_store.specs.Holding.{Holds};
ghost use Rattle.vs_store.specs.Store.{told_of, limit_of, length_with, IsReady, IsCalm};
ghost use Rattle.vs_stores.specs.Calls.{AwaitsChange};

use crate::fault::AppendFault;
use std::alloc::Global;
use vs_disk::{Disk, DiskFailed};
use vs_record::Change;
use vs_store::Store;

/// Makes sure that the change that is pending is there.
pub fn keep<D: Disk + Drop>(
    alloc: Global,
    store: &mut Store<D>,
    change: &Change,
) -> Result<(), AppendFault>
    requires counts { HasCounts (plain_of change.now) }
    requires awaits { AwaitsChange store.old (plain_of change.now) }
    ensures ready { OnOk result (IsReady store.new) }
    ensures calm { OnOk result (IsCalm store.new) }
    ensures kept { OnOk result ((head : head.Head) (d : Durable)
        → Holds store.old head d (Some (plain_of change.now))
        → Holds store.new head (applied d (plain_of change.now)) None) }
    ensures still { OnErr result ((head : head.Head) (d : Durable)
        → Holds store.old head d (Some (plain_of change.now))
        → Holds store.new head d (Some (plain_of change.now))) }
    ensures failed { IsErrOf result AppendFault.DiskFault
        → Failed (told_of store.old) (told_of store.new) }
    ensures full { (len : ℕ) → IsErrOf result (AppendFault.Full len)
        → (len ≡ length_with store.new (plain_of change.now)) × (limit_of store.old < len) }
    ensures ready_full { (len : ℕ) → IsErrOf result (AppendFault.Full len) → IsReady store.new }
    ensures any_moment { (head : head.Head) (d : Durable)
        → Holds store.old head d (Some (plain_of change.now))
        → LeavesThrough (told_of store.old) (told_of store.new)
        (StandsForSome head d (Some (plain_of change.now))) }
    ensures limit { limit_of store.new ≡ limit_of store.old }
    ensures keeps { Keeps (told_of store.old) (told_of store.new) }
{
    match store.reopen() {
        Ok(true) => {
            store.forget_last();
            Ok(())
        }
        Ok(false) => match store.append(alloc, change) {
            Ok(()) => Ok(()),
            Err(fault) => Err(AppendFault::of_store(fault)),
        },
        Err(_) => Err(AppendFault::DiskFault),
    }
}

/// Makes sure that the change that is pending isn't there. It takes no memory.
pub fn take_out<D: Disk + Drop>(store: &mut Store<D>) -> Result<(), DiskFailed>
    ensures ready { OnOk result (IsReady store.new) }
    ensures calm { OnOk result (IsCalm store.new) }
    ensures dropped { OnOk result ((head : head.Head) (d : Durable) (c : plain.Change)
        → Holds store.old head d (Some c) → Holds store.new head d None) }
    ensures still { OnErr result ((head : head.Head) (d : Durable) (c : plain.Change)
        → Holds store.old head d (Some c) → Holds store.new head d (Some c)) }
    ensures failed { OnErr result (Failed (told_of store.old) (told_of store.new)) }
    ensures any_moment { (head : head.Head) (d : Durable) (c : plain.Change)
        → Holds store.old head d (Some c)
        → LeavesThrough (told_of store.old) (told_of store.new) (StandsForSome head d (Some c)) }
    ensures limit { limit_of store.new ≡ limit_of store.old }
    ensures keeps { Keeps (told_of store.old) (told_of store.new) }
{
    match store.reopen() {
        Ok(true) => match store.drop_last() {
            Ok(()) => {
                store.forget_last();
                Ok(())
            }
            Err(_) => Err(DiskFailed),
        },
        Ok(false) => Ok(()),
        Err(_) => Err(DiskFailed),
    }
}

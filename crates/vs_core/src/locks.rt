//! Which references there are at a set that is up again.

ghost use Rattle.std.specs.Prelude.{◌≡◌, ◌≤◌, ◌==◌, ℕ, if◌then◌else◌, false, IfOk, OnOk};
ghost use Rattle.vs_record.specs.Change.{change};
ghost use Rattle.vs_refs.specs.Counts.{no_counts};
ghost use Rattle.vs_refs.specs.Refs.{counts_of};
ghost use Rattle.vs_machine.specs.Kinds.Collection as collection;
ghost use Rattle.vs_state.specs.Plain.{plain};
ghost use Rattle.vs_core.specs.Keeps.{IsKnown};
ghost use Rattle.vs_core.specs.Restarting.{kept_of, settled, status_by, AreLocks};

use crate::keeping::kept_change;
use vs_base::{BucketId, Mode, NoMemory, SetNo};
use vs_record::Change;
use vs_refs::Refs;
use vs_space::Status;
use vs_state::State;

/// Whether a status is that of a bucket whose rows are to be deleted.
pub(crate) fn is_garbage(status: &Option<Status>) -> bool
    ensures { result ≡ collection.is_garbage status.now }
{
    matches!(status, Some(Status::Garbage))
}

/// The status of a change's bucket once the change took effect.
fn status_by(pending: &Change, old: Option<Status>) -> Option<Status>
    ensures { result ≡ status_by (change pending.now) old }
{
    match pending {
        Change::Status(_, status) => Some(*status),
        Change::RowsPage(_, source, _) => Some(Status::Receiving(*source)),
        Change::Write(_, _, _) | Change::Wipe(_, _) => old,
        Change::Forget(_) => None,
    }
}

/// The status of a bucket at a set once the pending change took effect, where it is kept.
fn settled_status(state: &State, set: SetNo, kept: bool, bucket: BucketId) -> Option<Status>
    ensures { result ≡ ((settled (plain state.now) set (kept_of kept ((plain state.now).pending set))).bucket bucket).entry set }
{
    let old = state.entry(set, bucket);
    let Some(pending) = kept_change(state, set, kept) else {
        return old;
    };
    if pending.bucket() != bucket {
        return old;
    }
    status_by(pending, old)
}

/// Locks a bucket that has no references against reads, if it is to be locked.
pub(crate) fn lock_if(refs: &mut Refs, bucket: BucketId, locked: bool) -> Result<(), NoMemory>
    requires { counts_of refs.old.items bucket ≡ no_counts }
    ensures { OnOk result ((q : ℕ) → counts_of refs.new.items q
        ≡ (if q == bucket then record no_counts { ro_lock = locked } else counts_of refs.old.items q)) }
{
    if !locked {
        return Ok(());
    }
    refs.reserve()?;
    refs.lock(bucket, Mode::Ro);
    Ok(())
}

/// The references of a set that is down, once it is up: buckets that are garbage then are locked against reads. A set
/// that is up gets none. Only a bucket that is neither active nor pinned can be garbage then, so no other is looked at.
pub(crate) fn settled_locks(state: &State, set: SetNo, kept: bool) -> Result<Refs, NoMemory>
    requires known { IsKnown (plain state.now) }
    ensures { IfOk result (λ refs. (plain state.now).up set ≡ false → AreLocks refs.items
        (settled (plain state.now) set (kept_of kept ((plain state.now).pending set))) set) }
{
    let mut refs = Refs::new(*state.sets.allocator());
    if state.up(set) {
        return Ok(refs);
    }
    let mut after = None;
    while let Some(bucket) = state.next_open(set, after) {
        let status = settled_status(state, set, kept, bucket);
        lock_if(&mut refs, bucket, is_garbage(&status))?;
        after = Some(bucket);
    }
    Ok(refs)
}

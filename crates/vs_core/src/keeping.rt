//! A pending change takes effect at a set that is down.

ghost use Rattle.std.specs.Prelude.{◌≡◌, ◌≢◌, length, true, false, option_map, IfOk, Some, None};
ghost use Rattle.std.specs.Option.{option_copied};
ghost use Rattle.vs_base.specs.declared.numbers.Mode.TheVariants.{Rw};
ghost use Rattle.vs_record.specs.Change.{bucket_of, change};
ghost use Rattle.vs_space.specs.Status.{MayChange};
ghost use Rattle.vs_machine.specs.Kinds.Calls.{bucket_after};
ghost use Rattle.vs_machine.specs.Kinds.Stops.{with_change, with_status};
ghost use Rattle.vs_machine.specs.State as machine;
ghost use Rattle.vs_state.specs.Plain.{plain};
ghost use Rattle.vs_core.specs.Acting.{stored_at, HasHistoryRoom, IsStaged};
ghost use Rattle.vs_core.specs.Keeps.{IsKnown, IsSound};
ghost use Rattle.vs_core.specs.Restarting.{kept_of, settled, IsChangeReady, IsLawfulChange, IsPendingReady};
ghost use Rattle.vs_core.specs.Sending.{HasPlaceRoom};

use crate::kinds::act::run;
use crate::moves::reserve_place;
use crate::receiving::{add_rows, reserve_rows};
use crate::reserves::{reserve_entry, stage_rows};
use crate::restoring::{change_status, forget, hand_over, take_pending, wipe_rows};
use vs_base::{BucketId, CallId, Mode, NoMemory, SetNo};
use vs_record::Change;
use vs_rows::{Answers, Changes, Ops, Staged};
use vs_space::Status;
use vs_state::State;

/// The change of a set that takes effect, where the pending one is kept.
pub(crate) fn kept_change(state: &State, set: SetNo, kept: bool) -> Option<&Change>
    ensures { option_map change (option_copied result) ≡ kept_of kept ((plain state.now).pending set) }
{
    if kept { state.pending(set) } else { None }
}

/// What is staged where no write is kept.
fn nothing_staged(state: &State) -> Staged {
    let alloc = *state.sets.allocator();
    Staged {
        changes: Changes::new(alloc),
        answers: Answers::new(alloc),
    }
}

/// Stages the operations of a write that takes effect at a set, and makes room for what they change.
fn stage_write(
    state: &mut State,
    set: SetNo,
    bucket: BucketId,
    ops: Ops,
) -> Result<Staged, NoMemory>
    requires set { machine.has_set (plain state.old) set ≡ true }
    requires bucket { machine.has_bucket (plain state.old) bucket ≡ true }
    requires sound { IsSound state.old }
    ensures staged { IfOk result (λ staged. IsStaged (stored_at state.new set bucket) ops.items staged) }
    ensures history { IfOk result (λ _. HasHistoryRoom state.new bucket) }
    ensures same { plain state.new ≡ plain state.old }
    ensures sound { IsSound state.new }
{
    reserve_entry(state, bucket)?;
    stage_rows(state, set, bucket, &ops)
}

/// Makes room for what the pending change of a set does, where it is kept, and stages a write.
pub(crate) fn reserve_change(state: &mut State, set: SetNo, kept: bool) -> Result<Staged, NoMemory>
    requires set { machine.has_set (plain state.old) set ≡ true }
    requires known { IsKnown (plain state.old) }
    requires sound { IsSound state.old }
    ensures ready { IfOk result (λ staged. IsPendingReady state.new set (kept_of kept ((plain state.old).pending set)) staged) }
    ensures same { plain state.new ≡ plain state.old }
    ensures sound { IsSound state.new }
{
    let nothing = nothing_staged(state);
    let Some(pending) = kept_change(state, set, kept) else {
        return Ok(nothing);
    };
    match pending {
        Change::Status(bucket, _) => {
            // Only a bucket that is sent keeps its place, but one place more costs little.
            let bucket = *bucket;
            reserve_place(state, set, bucket)?;
            Ok(nothing)
        }
        Change::RowsPage(bucket, _, page) => {
            let bucket = *bucket;
            let count = page.len() as u16;
            reserve_rows(state, set, bucket, count)?;
            Ok(nothing)
        }
        Change::Write(_, bucket, ops) => {
            let bucket = *bucket;
            let ops = ops.try_clone()?;
            stage_write(state, set, bucket, ops)
        }
        Change::Wipe(_, _) | Change::Forget(_) => Ok(nothing),
    }
}

/// A bucket has the status of a change. Where it is sent, the place of its rows is kept.
fn keep_status(state: &mut State, set: SetNo, bucket: BucketId, status: Status)
    requires set { machine.has_set (plain state.old) set ≡ true }
    requires sound { IsSound state.old }
    requires down { (plain state.old).up set ≡ false }
    requires there { ((plain state.old).bucket bucket).entry set ≢ None }
    requires allowed { MayChange (((plain state.old).bucket bucket).entry set) (Some status) }
    requires room { HasPlaceRoom state.old set bucket }
    ensures kept { plain state.new ≡ machine.put_bucket (plain state.old) bucket
        (with_status ((plain state.old).bucket bucket) set status) }
    ensures operators { state.new.operators ≡ state.old.operators }
    ensures sound { IsSound state.new }
{
    if let Status::Sent(dest) = &status {
        let place = state.writes(bucket);
        hand_over(state, set, bucket, *dest, place);
        return;
    }
    change_status(state, set, bucket, status);
}

/// A write takes effect as it was staged, and joins the history.
fn keep_write(state: &mut State, set: SetNo, bucket: BucketId, id: CallId, ops: Ops, staged: Staged)
    requires set { machine.has_set (plain state.old) set ≡ true }
    requires bucket { machine.has_bucket (plain state.old) bucket ≡ true }
    requires sound { IsSound state.old }
    requires staged { IsStaged (stored_at state.old set bucket) ops.items staged }
    requires history { HasHistoryRoom state.old bucket }
    ensures kept { plain state.new ≡ machine.put_bucket (plain state.old) bucket
        (bucket_after ((plain state.old).bucket bucket) set id Rw ops.items) }
    ensures operators { state.new.operators ≡ state.old.operators }
    ensures sound { IsSound state.new }
{
    let Staged { changes, answers } = staged;
    run(state, set, bucket, Mode::Rw, id, ops, answers, changes);
}

/// A change takes effect at a set that is down. It takes no memory.
fn keep_change(state: &mut State, set: SetNo, pending: Change, staged: Staged)
    requires set { machine.has_set (plain state.old) set ≡ true }
    requires bucket { machine.has_bucket (plain state.old) (bucket_of (change pending)) ≡ true }
    requires sound { IsSound state.old }
    requires down { (plain state.old).up set ≡ false }
    requires lawful { IsLawfulChange (((plain state.old).bucket (bucket_of (change pending))).entry set) (change pending) }
    requires ready { IsChangeReady state.old set (change pending) staged }
    ensures kept { plain state.new ≡ machine.put_bucket (plain state.old) (bucket_of (change pending))
        (with_change ((plain state.old).bucket (bucket_of (change pending))) set (change pending)) }
    ensures operators { state.new.operators ≡ state.old.operators }
    ensures sound { IsSound state.new }
{
    match pending {
        Change::Status(bucket, status) => keep_status(state, set, bucket, status),
        Change::RowsPage(bucket, source, page) => add_rows(state, set, bucket, source, page),
        Change::Write(id, bucket, ops) => keep_write(state, set, bucket, id, ops, staged),
        Change::Wipe(bucket, count) => wipe_rows(state, set, bucket, count),
        Change::Forget(bucket) => forget(state, set, bucket),
    }
}

/// The pending change of a set that is down takes effect where it is kept, and is gone. It takes no memory.
pub(crate) fn settle(state: &mut State, set: SetNo, kept: bool, staged: Staged)
    requires set { machine.has_set (plain state.old) set ≡ true }
    requires down { (plain state.old).up set ≡ false }
    requires known { IsKnown (plain state.old) }
    requires sound { IsSound state.old }
    requires ready { IsPendingReady state.old set (kept_of kept ((plain state.old).pending set)) staged }
    ensures settled { plain state.new ≡ settled (plain state.old) set (kept_of kept ((plain state.old).pending set)) }
    ensures operators { state.new.operators ≡ state.old.operators }
    ensures sound { IsSound state.new }
{
    let Some(pending) = take_pending(state, set) else {
        return;
    };
    if !kept {
        return;
    }
    keep_change(state, set, pending, staged);
}

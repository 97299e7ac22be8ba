//! A transfer is given up, or has ended.

ghost use Rattle.std.specs.Prelude.{◌≡◌, Ok, OnOk};
ghost use Rattle.vs_machine.specs.Kinds.Sender as sender;
ghost use Rattle.vs_state.specs.Agrees.{Agrees};
ghost use Rattle.vs_state.specs.Guard.{verdict};
ghost use Rattle.vs_state.specs.Plain.{plain};
ghost use Rattle.vs_state.specs.Sized.{IsSized};
ghost use Rattle.vs_core.specs.Keeps.{IsKnown, IsSound};
ghost use Rattle.vs_core.specs.Sending.{IsAbortReady, IsEndReady, HasMovedRoom};

use crate::answers::{answer, reserve_answer};
use crate::commands::count_moved;
use crate::moves;
use vs_base::{BucketId, NoMemory, OpNo, SetNo};
use vs_machine::CommandOutcome;
use vs_send::{AbortCause, By, Transfer};
use vs_state::State;

/// Why a transfer of a bucket is to be given up, if it is.
fn cause_at(state: &State, set: SetNo, bucket: BucketId, transfer: &Transfer) -> Option<AbortCause>
    requires sized { IsSized state.now }
    requires agrees { Agrees state.now }
    ensures { result ≡ sender.cause_at (plain state.now) set bucket transfer.now }
{
    let writes = state.counts(set, bucket).rw;
    let dest_up = state.up(transfer.dest);
    let epoch = state.epoch(set, transfer.dest);
    transfer.abort_cause(writes, dest_up, epoch)
}

/// Whether an operator's round can count one more bucket.
fn check_moved(state: &State, operator: OpNo) -> Result<(), NoMemory>
    ensures { OnOk result (HasMovedRoom state.now operator) }
{
    let Some(tables) = state.operator(operator) else {
        return Ok(());
    };
    if tables.moved < u64::MAX {
        Ok(())
    } else {
        Err(NoMemory)
    }
}

/// Makes room for the answer to the command that began a transfer.
pub(crate) fn reserve_abort(state: &mut State, set: SetNo, bucket: BucketId) -> Result<(), NoMemory>
    requires possible { verdict (sender.abort (plain state.old) set bucket) ≡ Ok tt }
    requires known { IsKnown (plain state.old) }
    requires sound { IsSound state.old }
    ensures ready { OnOk result (IsAbortReady state.new set bucket) }
    ensures same { plain state.new ≡ plain state.old }
    ensures sound { IsSound state.new }
{
    let Some(transfer) = state.transfer(set, bucket) else {
        unreachable!()
    };
    match transfer.by {
        By::Command(operator) => reserve_answer(state, operator),
        By::Haul(_) => Ok(()),
    }
}

/// A transfer is given up. The command that began it is answered with the cause.
pub(crate) fn abort(state: &mut State, set: SetNo, bucket: BucketId)
    requires possible { verdict (sender.abort (plain state.old) set bucket) ≡ Ok tt }
    requires known { IsKnown (plain state.old) }
    requires sound { IsSound state.old }
    requires ready { IsAbortReady state.old set bucket }
    ensures step { sender.abort (plain state.old) set bucket ≡ Ok (plain state.new) }
    ensures sound { IsSound state.new }
{
    let Some(transfer) = state.transfer(set, bucket) else {
        return;
    };
    let by = transfer.by;
    let Some(cause) = cause_at(state, set, bucket, transfer) else {
        return;
    };
    moves::end(state, set, bucket);
    match by {
        By::Command(operator) => answer(state, operator, CommandOutcome::Aborted(cause)),
        By::Haul(_) => {}
    }
}

/// Makes room for what the end of a transfer tells who began it.
pub(crate) fn reserve_end_move(
    state: &mut State,
    set: SetNo,
    bucket: BucketId,
) -> Result<(), NoMemory>
    requires possible { verdict (sender.end_move (plain state.old) set bucket) ≡ Ok tt }
    requires known { IsKnown (plain state.old) }
    requires sound { IsSound state.old }
    ensures ready { OnOk result (IsEndReady state.new set bucket) }
    ensures same { plain state.new ≡ plain state.old }
    ensures sound { IsSound state.new }
{
    let Some(transfer) = state.transfer(set, bucket) else {
        unreachable!()
    };
    match transfer.by {
        By::Command(operator) => reserve_answer(state, operator),
        By::Haul(operator) => check_moved(state, operator),
    }
}

/// A transfer has ended. Its command is answered, and a haul counts as moved.
pub(crate) fn end_move(state: &mut State, set: SetNo, bucket: BucketId)
    requires possible { verdict (sender.end_move (plain state.old) set bucket) ≡ Ok tt }
    requires known { IsKnown (plain state.old) }
    requires sound { IsSound state.old }
    requires ready { IsEndReady state.old set bucket }
    ensures step { sender.end_move (plain state.old) set bucket ≡ Ok (plain state.new) }
    ensures sound { IsSound state.new }
{
    let Some(transfer) = state.transfer(set, bucket) else {
        return;
    };
    let by = transfer.by;
    moves::end(state, set, bucket);
    match by {
        By::Command(operator) => answer(state, operator, CommandOutcome::Moved),
        By::Haul(operator) => count_moved(state, operator),
    }
}

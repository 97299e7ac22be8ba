//! How a set's asks are written in the state, and what comes of their answers. No call takes memory but that which makes
//! room.

ghost use Rattle.std.specs.Prelude.{◌≡◌, true, OnOk, Some};
ghost use Rattle.vs_space.specs.Status.{MayChange};
ghost use Rattle.vs_space.specs.declared.status.Status.TheVariants.{Active, Garbage};
ghost use Rattle.vs_recover.specs.declared.decision.Decision.TheVariants.{Stay, ToActive, ToGarbage};
ghost use Rattle.vs_machine.specs.Kinds.Connections.{decided};
ghost use Rattle.vs_machine.specs.State as machine;
ghost use Rattle.vs_state.specs.Plain.{plain};
ghost use Rattle.vs_core.specs.Asking.{HasAskRoom};
ghost use Rattle.vs_core.specs.Hearing.{MayTake};
ghost use Rattle.vs_core.specs.Keeps.{IsSound};
ghost use Rattle.vs_core.specs.References.{HasReferenceRoom};

use crate::asks;
use vs_base::{BucketId, NoMemory, SetNo};
use vs_recover::Decision;
use vs_state::State;

/// Makes room for one more ask of a set.
pub(crate) fn reserve_ask(state: &mut State, set: SetNo) -> Result<(), NoMemory>
    requires set { machine.has_set (plain state.old) set ≡ true }
    requires sound { IsSound state.old }
    ensures room { OnOk result (HasAskRoom state.new set) }
    ensures same { plain state.new ≡ plain state.old }
    ensures sound { IsSound state.new }
{
    let tables = &mut state.sets[usize::from(set.get()) - 1];
    asks::reserve_ask(tables)
}

/// A set asked about a bucket, on a connection of this epoch, by the message of this number.
pub(crate) fn put_ask(state: &mut State, set: SetNo, bucket: BucketId, epoch: u64, sync: u64)
    requires set { machine.has_set (plain state.old) set ≡ true }
    requires sound { IsSound state.old }
    requires room { HasAskRoom state.old set }
    ensures asked { plain state.new ≡ machine.put_bucket (plain state.old) bucket
        (machine.with_ask ((plain state.old).bucket bucket) set (Some (record { epoch = epoch; sync = sync }))) }
    ensures sound { IsSound state.new }
{
    let tables = &mut state.sets[usize::from(set.get()) - 1];
    asks::put_ask(tables, bucket, epoch, sync);
}

/// The ask of a bucket has ended, and the bucket is what it was.
fn end_ask(state: &mut State, set: SetNo, bucket: BucketId)
    requires set { machine.has_set (plain state.old) set ≡ true }
    requires sound { IsSound state.old }
    ensures ended { plain state.new ≡ machine.put_bucket (plain state.old) bucket
        (decided ((plain state.old).bucket bucket) set Stay) }
    ensures sound { IsSound state.new }
{
    let tables = &mut state.sets[usize::from(set.get()) - 1];
    asks::end_ask(tables, bucket);
}

/// A bucket that was asked about is active.
fn settle_active(state: &mut State, set: SetNo, bucket: BucketId)
    requires set { machine.has_set (plain state.old) set ≡ true }
    requires bucket { machine.has_bucket (plain state.old) bucket ≡ true }
    requires sound { IsSound state.old }
    requires may { MayChange (((plain state.old).bucket bucket).entry set) (Some Active) }
    ensures active { plain state.new ≡ machine.put_bucket (plain state.old) bucket
        (decided ((plain state.old).bucket bucket) set ToActive) }
    ensures sound { IsSound state.new }
{
    let tables = &mut state.sets[usize::from(set.get()) - 1];
    asks::settle_active(tables, bucket);
}

/// A bucket that was asked about is garbage.
fn settle_garbage(state: &mut State, set: SetNo, bucket: BucketId)
    requires set { machine.has_set (plain state.old) set ≡ true }
    requires sound { IsSound state.old }
    requires up { (plain state.old).up set ≡ true }
    requires may { MayChange (((plain state.old).bucket bucket).entry set) (Some Garbage) }
    requires room { HasReferenceRoom state.old set }
    ensures garbage { plain state.new ≡ machine.put_bucket (plain state.old) bucket
        (decided ((plain state.old).bucket bucket) set ToGarbage) }
    ensures sound { IsSound state.new }
{
    let tables = &mut state.sets[usize::from(set.get()) - 1];
    asks::settle_garbage(tables, bucket);
}

/// A set decided about a bucket that it asked about, and the ask has ended.
pub(crate) fn settle(state: &mut State, set: SetNo, bucket: BucketId, decision: Decision)
    requires set { machine.has_set (plain state.old) set ≡ true }
    requires bucket { machine.has_bucket (plain state.old) bucket ≡ true }
    requires sound { IsSound state.old }
    requires up { (plain state.old).up set ≡ true }
    requires may { MayTake (((plain state.old).bucket bucket).entry set) decision }
    requires room { HasReferenceRoom state.old set }
    ensures settled { plain state.new ≡ machine.put_bucket (plain state.old) bucket
        (decided ((plain state.old).bucket bucket) set decision) }
    ensures sound { IsSound state.new }
{
    match decision {
        Decision::Stay => end_ask(state, set, bucket),
        Decision::ToActive => settle_active(state, set, bucket),
        Decision::ToGarbage => settle_garbage(state, set, bucket),
    }
}

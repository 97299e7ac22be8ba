//! How a pending change takes effect in the state, and how a set is up again. No call takes memory.

ghost use Rattle.std.specs.Prelude.{◌≡◌, ◌≢◌, drop, true, false, option_map, Some, None};
ghost use Rattle.vs_record.specs.Change.{change};
ghost use Rattle.vs_space.specs.Status.{MayChange};
ghost use Rattle.vs_space.specs.declared.status.Status.TheVariants.{Garbage, Sent};
ghost use Rattle.vs_machine.specs.State as machine;
ghost use Rattle.vs_machine.specs.Tables.{put};
ghost use Rattle.vs_state.specs.Plain.{plain};
ghost use Rattle.vs_state.specs.Tables.{numbered};
ghost use Rattle.vs_core.specs.Keeps.{IsSound};
ghost use Rattle.vs_core.specs.Restarting.{without_pending, AreLocks, IsUnheld};
ghost use Rattle.vs_core.specs.Sending.{HasPlaceRoom};

use crate::changes;
use vs_base::{BucketId, SetNo};
use vs_record::Change;
use vs_refs::Refs;
use vs_space::Status;
use vs_state::State;

/// A bucket has another status at a set that is down.
pub(crate) fn change_status(state: &mut State, set: SetNo, bucket: BucketId, status: Status)
    requires set { machine.has_set (plain state.old) set ≡ true }
    requires sound { IsSound state.old }
    requires down { (plain state.old).up set ≡ false }
    requires there { ((plain state.old).bucket bucket).entry set ≢ None }
    requires allowed { MayChange (((plain state.old).bucket bucket).entry set) (Some status) }
    ensures changed { plain state.new ≡ machine.put_bucket (plain state.old) bucket
        (machine.with_entry ((plain state.old).bucket bucket) set (Some status)) }
    ensures operators { state.new.operators ≡ state.old.operators }
    ensures sound { IsSound state.new }
{
    let tables = &mut state.sets[usize::from(set.get()) - 1];
    changes::change_status(tables, bucket, status);
}

/// A set that is down has sent a bucket to `dest`, with the rows of this place.
pub(crate) fn hand_over(state: &mut State, set: SetNo, bucket: BucketId, dest: SetNo, place: u64)
    requires set { machine.has_set (plain state.old) set ≡ true }
    requires sound { IsSound state.old }
    requires down { (plain state.old).up set ≡ false }
    requires there { ((plain state.old).bucket bucket).entry set ≢ None }
    requires allowed { MayChange (((plain state.old).bucket bucket).entry set) (Some (Sent dest)) }
    requires room { HasPlaceRoom state.old set bucket }
    ensures sent { plain state.new ≡ machine.put_bucket (plain state.old) bucket
        (record ((plain state.old).bucket bucket) {
          entry = put ((plain state.old).bucket bucket).entry set (Some (Sent dest));
          kept = put ((plain state.old).bucket bucket).kept set place;
        }) }
    ensures operators { state.new.operators ≡ state.old.operators }
    ensures sound { IsSound state.new }
{
    let tables = &mut state.sets[usize::from(set.get()) - 1];
    changes::hand_over(tables, bucket, dest, place);
}

/// The first rows of a bucket at a set are deleted.
pub(crate) fn wipe_rows(state: &mut State, set: SetNo, bucket: BucketId, count: u16)
    requires set { machine.has_set (plain state.old) set ≡ true }
    requires sound { IsSound state.old }
    ensures wiped { plain state.new ≡ machine.put_bucket (plain state.old) bucket
        (machine.put_rows ((plain state.old).bucket bucket) set
        (drop count (((plain state.old).bucket bucket).rows set))) }
    ensures operators { state.new.operators ≡ state.old.operators }
    ensures sound { IsSound state.new }
{
    let tables = &mut state.sets[usize::from(set.get()) - 1];
    changes::wipe_rows(tables, bucket, count);
}

/// A set that is down forgets a bucket that is garbage.
pub(crate) fn forget(state: &mut State, set: SetNo, bucket: BucketId)
    requires set { machine.has_set (plain state.old) set ≡ true }
    requires sound { IsSound state.old }
    requires down { (plain state.old).up set ≡ false }
    requires garbage { ((plain state.old).bucket bucket).entry set ≡ Some Garbage }
    ensures forgotten { plain state.new ≡ machine.put_bucket (plain state.old) bucket
        (machine.with_entry ((plain state.old).bucket bucket) set None) }
    ensures operators { state.new.operators ≡ state.old.operators }
    ensures sound { IsSound state.new }
{
    let tables = &mut state.sets[usize::from(set.get()) - 1];
    changes::forget(tables, bucket);
}

/// Takes a set's pending change out. The tables of the set stay else as they are.
pub(crate) fn take_pending(state: &mut State, set: SetNo) -> Option<Change>
    requires set { machine.has_set (plain state.old) set ≡ true }
    requires sound { IsSound state.old }
    ensures taken { option_map change result ≡ (plain state.old).pending set }
    ensures gone { plain state.new ≡ record (plain state.old) { pending = put (plain state.old).pending set None } }
    ensures tables { numbered Some None state.new.sets.items set
        ≡ option_map without_pending (numbered Some None state.old.sets.items set) }
    ensures histories { state.new.histories ≡ state.old.histories }
    ensures operators { state.new.operators ≡ state.old.operators }
    ensures sound { IsSound state.new }
{
    let tables = &mut state.sets[usize::from(set.get()) - 1];
    changes::take_pending(tables)
}

/// A set at which no call holds anything is up, with these references.
pub(crate) fn raise(state: &mut State, set: SetNo, refs: Refs)
    requires set { machine.has_set (plain state.old) set ≡ true }
    requires sound { IsSound state.old }
    requires unheld { IsUnheld (plain state.old) set }
    requires locks { AreLocks refs.items (plain state.old) set }
    ensures up { plain state.new ≡ record (plain state.old) { up = put (plain state.old).up set true } }
    ensures operators { state.new.operators ≡ state.old.operators }
    ensures sound { IsSound state.new }
{
    let tables = &mut state.sets[usize::from(set.get()) - 1];
    changes::raise(tables, refs);
}

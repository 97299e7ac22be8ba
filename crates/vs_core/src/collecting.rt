//! How a set gives up a bucket and collects what it has of it, in the state. No call takes memory.

ghost use Rattle.std.specs.Prelude.{◌≡◌, true, drop, Some, None};
ghost use Rattle.vs_space.specs.declared.status.Status.TheVariants.{Garbage};
ghost use Rattle.vs_machine.specs.Kinds.Collection.{is_sent};
ghost use Rattle.vs_machine.specs.State as machine;
ghost use Rattle.vs_state.specs.Plain.{plain};
ghost use Rattle.vs_core.specs.Keeps.{IsSound};
ghost use Rattle.vs_core.specs.References.{HasReferenceRoom};

use crate::garbage;
use vs_base::{BucketId, SetNo};
use vs_state::State;

/// A bucket that was sent is given up.
pub(crate) fn condemn(state: &mut State, set: SetNo, bucket: BucketId)
    requires set { machine.has_set (plain state.old) set ≡ true }
    requires sound { IsSound state.old }
    requires room { HasReferenceRoom state.old set }
    requires up { (plain state.old).up set ≡ true }
    requires sent { is_sent (((plain state.old).bucket bucket).entry set) ≡ true }
    ensures condemned { plain state.new ≡ machine.put_bucket (plain state.old) bucket
        (machine.with_entry ((plain state.old).bucket bucket) set (Some Garbage)) }
    ensures sound { IsSound state.new }
{
    let tables = &mut state.sets[usize::from(set.get()) - 1];
    garbage::condemn(tables, bucket);
}

/// The first 1,000 rows of a bucket are deleted, or all.
pub(crate) fn wipe(state: &mut State, set: SetNo, bucket: BucketId)
    requires set { machine.has_set (plain state.old) set ≡ true }
    requires sound { IsSound state.old }
    ensures rows { plain state.new ≡ machine.put_bucket (plain state.old) bucket
        (machine.put_rows ((plain state.old).bucket bucket) set
        (drop 1000 (((plain state.old).bucket bucket).rows set))) }
    ensures sound { IsSound state.new }
{
    let tables = &mut state.sets[usize::from(set.get()) - 1];
    garbage::wipe(tables, bucket);
}

/// A bucket that was given up has no entry any more.
pub(crate) fn forget(state: &mut State, set: SetNo, bucket: BucketId)
    requires set { machine.has_set (plain state.old) set ≡ true }
    requires sound { IsSound state.old }
    requires up { (plain state.old).up set ≡ true }
    requires garbage { ((plain state.old).bucket bucket).entry set ≡ Some Garbage }
    ensures forgotten { plain state.new ≡ machine.put_bucket (plain state.old) bucket
        (machine.with_entry ((plain state.old).bucket bucket) set None) }
    ensures sound { IsSound state.new }
{
    let tables = &mut state.sets[usize::from(set.get()) - 1];
    garbage::forget(tables, bucket);
}

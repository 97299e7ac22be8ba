//! How references of a set are taken and given back.

ghost use Rattle.std.specs.Prelude.{◌≡◌, ◌≤◌, ◌<◌, ◌-◌, ◌^◌, true, false, OnOk};
ghost use Rattle.vs_refs.specs.Calls.{Makes, Take, Give};
ghost use Rattle.vs_refs.specs.Counts.{count_of, lock_of};
ghost use Rattle.vs_refs.specs.Refs.{counts_of};
ghost use Rattle.vs_machine.specs.State as machine;
ghost use Rattle.vs_state.specs.Agrees.{counts_at};
ghost use Rattle.vs_state.specs.Plain.{plain};
ghost use Rattle.vs_state.specs.Sized.{IsSized};
ghost use Rattle.vs_core.specs.Keeps.{IsSound};
ghost use Rattle.vs_core.specs.References.{MakesAt, HasReferenceRoom};

use vs_base::{BucketId, Mode, NoMemory, SetNo};
use vs_state::{SetTables, State};

/// Makes room for references in the tables of a set.
pub(crate) fn reserve_in(tables: &mut SetTables) -> Result<(), NoMemory>
    ensures room { OnOk result (1 ≤ tables.new.refs.room) }
    ensures items { tables.new.refs.items ≡ tables.old.refs.items }
    ensures rest { tables.new ≡ record tables.old { refs = tables.new.refs } }
{
    tables.refs.reserve()
}

/// Makes room for references on one more bucket at a set.
pub(crate) fn reserve_reference(state: &mut State, set: SetNo) -> Result<(), NoMemory>
    requires set { machine.has_set (plain state.old) set ≡ true }
    requires sound { IsSound state.old }
    ensures room { OnOk result (HasReferenceRoom state.new set) }
    ensures same { plain state.new ≡ plain state.old }
    ensures sound { IsSound state.new }
{
    let tables = &mut state.sets[usize::from(set.get()) - 1];
    reserve_in(tables)
}

/// Takes a reference in the tables of a set.
fn take_in(tables: &mut SetTables, bucket: BucketId, mode: Mode)
    requires room { 1 ≤ tables.old.refs.room }
    requires below { count_of (counts_of tables.old.refs.items bucket) mode < 2 ^ 32 - 1 }
    requires unlocked { lock_of (counts_of tables.old.refs.items bucket) mode ≡ false }
    ensures taken { Makes (Take bucket mode) tables.old.refs.items tables.new.refs.items }
    ensures rest { tables.new ≡ record tables.old { refs = tables.new.refs } }
{
    // The lock doesn't stand, so it isn't refused.
    let _taken = tables.refs.take(bucket, mode);
}

/// Takes a reference on a bucket at a set. It takes no memory.
pub(crate) fn take_reference(state: &mut State, set: SetNo, bucket: BucketId, mode: Mode)
    requires set { machine.has_set (plain state.old) set ≡ true }
    requires sized { IsSized state.old }
    requires room { HasReferenceRoom state.old set }
    requires below { count_of (counts_at state.old set bucket) mode < 2 ^ 32 - 1 }
    requires unlocked { lock_of (counts_at state.old set bucket) mode ≡ false }
    ensures taken { MakesAt state.old state.new set (Take bucket mode) }
    ensures sized { IsSized state.new }
{
    let tables = &mut state.sets[usize::from(set.get()) - 1];
    take_in(tables, bucket, mode);
}

/// Gives a reference back in the tables of a set.
fn give_in(tables: &mut SetTables, bucket: BucketId, mode: Mode)
    requires { 0 < count_of (counts_of tables.old.refs.items bucket) mode }
    ensures given { Makes (Give bucket mode) tables.old.refs.items tables.new.refs.items }
    ensures rest { tables.new ≡ record tables.old { refs = tables.new.refs } }
{
    tables.refs.give(bucket, mode);
}

/// Gives a reference on a bucket at a set back. It takes no memory.
pub(crate) fn give_reference(state: &mut State, set: SetNo, bucket: BucketId, mode: Mode)
    requires set { machine.has_set (plain state.old) set ≡ true }
    requires sized { IsSized state.old }
    requires held { 0 < count_of (counts_at state.old set bucket) mode }
    ensures given { MakesAt state.old state.new set (Give bucket mode) }
    ensures sized { IsSized state.new }
{
    let tables = &mut state.sets[usize::from(set.get()) - 1];
    give_in(tables, bucket, mode);
}

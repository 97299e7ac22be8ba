//! How what arrives of a bucket at a set is written in the state. No call takes memory but the one that makes room.

ghost use Rattle.std.specs.Prelude.{◌≡◌, length, true, OnOk};
ghost use Rattle.vs_machine.specs.Kinds.Connections.{is_receiving, with_last, with_page};
ghost use Rattle.vs_machine.specs.State as machine;
ghost use Rattle.vs_state.specs.Plain.{plain};
ghost use Rattle.vs_core.specs.Delivering.{HasPageRoomAt, IsOpenTo};
ghost use Rattle.vs_core.specs.Keeps.{IsSound};

use crate::arrivals;
use vs_base::{BucketId, NoMemory, SetNo};
use vs_rows::Page;
use vs_state::State;

/// Makes room for an entry of a bucket at a set, and for so many rows of it more.
pub(crate) fn reserve_rows(
    state: &mut State,
    set: SetNo,
    bucket: BucketId,
    count: u16,
) -> Result<(), NoMemory>
    requires set { machine.has_set (plain state.old) set ≡ true }
    requires sound { IsSound state.old }
    ensures room { OnOk result (HasPageRoomAt state.new set bucket count) }
    ensures same { plain state.new ≡ plain state.old }
    ensures sound { IsSound state.new }
{
    let alloc = *state.sets.allocator();
    let tables = &mut state.sets[usize::from(set.get()) - 1];
    arrivals::reserve_rows(alloc, tables, bucket, count)
}

/// Rows of a bucket arrive at a set from another.
pub(crate) fn add_rows(state: &mut State, set: SetNo, bucket: BucketId, source: SetNo, page: Page)
    requires set { machine.has_set (plain state.old) set ≡ true }
    requires bucket { machine.has_bucket (plain state.old) bucket ≡ true }
    requires sound { IsSound state.old }
    requires open { IsOpenTo (((plain state.old).bucket bucket).entry set) source }
    requires room { HasPageRoomAt state.old set bucket (length page.items) }
    ensures added { plain state.new ≡ machine.put_bucket (plain state.old) bucket
        (with_page ((plain state.old).bucket bucket) source set page.items) }
    ensures links { state.new.links ≡ state.old.links }
    ensures operators { state.new.operators ≡ state.old.operators }
    ensures sound { IsSound state.new }
{
    let tables = &mut state.sets[usize::from(set.get()) - 1];
    arrivals::add_rows(tables, bucket, source, page);
}

/// All rows of a bucket that a set received are there, and it is active.
pub(crate) fn activate(state: &mut State, set: SetNo, bucket: BucketId)
    requires set { machine.has_set (plain state.old) set ≡ true }
    requires bucket { machine.has_bucket (plain state.old) bucket ≡ true }
    requires sound { IsSound state.old }
    requires receiving { is_receiving (((plain state.old).bucket bucket).entry set) ≡ true }
    ensures active { plain state.new ≡ machine.put_bucket (plain state.old) bucket
        (with_last ((plain state.old).bucket bucket) set) }
    ensures links { state.new.links ≡ state.old.links }
    ensures sound { IsSound state.new }
{
    let tables = &mut state.sets[usize::from(set.get()) - 1];
    arrivals::activate(tables, bucket);
}

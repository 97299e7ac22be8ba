//! How buckets are pinned and unpinned. No call takes memory.

ghost use Rattle.std.specs.Prelude.{◌≡◌, true, Some};
ghost use Rattle.vs_machine.specs.State as machine;
ghost use Rattle.vs_state.specs.Plain.{plain, entry_in};
ghost use Rattle.vs_core.specs.Cells.{cell, HasCell, SameRefs};
ghost use Rattle.vs_core.specs.Keeps.{IsSound};
ghost use Rattle.vs_core.specs.Pins.{MayTurn};

use crate::statuses::set_status;
use vs_base::{BucketId, SetNo};
use vs_space::Status;
use vs_state::{SetTables, State};

/// A bucket is pinned or unpinned, in the tables of its set.
#[tactic(auto, using(crate::proofs::Turned::may_change, crate::proofs::Turned::has_entry))]
fn turn_in(tables: &mut SetTables, bucket: BucketId, status: Status)
    requires { MayTurn (entry_in tables.old bucket) status }
    ensures turned { HasCell tables.old tables.new bucket (record (cell tables.old bucket) { entry = Some status }) }
    ensures refs { SameRefs tables.old tables.new }
{
    set_status(&mut tables.space, bucket, status);
}

/// A bucket is pinned or unpinned.
pub(crate) fn turn(state: &mut State, set: SetNo, bucket: BucketId, status: Status)
    requires set { machine.has_set (plain state.old) set ≡ true }
    requires bucket { machine.has_bucket (plain state.old) bucket ≡ true }
    requires sound { IsSound state.old }
    requires may { MayTurn (((plain state.old).bucket bucket).entry set) status }
    ensures turned { plain state.new ≡ machine.put_bucket (plain state.old) bucket
        (machine.with_entry ((plain state.old).bucket bucket) set (Some status)) }
    ensures operators { state.new.operators ≡ state.old.operators }
    ensures sound { IsSound state.new }
{
    let tables = &mut state.sets[usize::from(set.get()) - 1];
    turn_in(tables, bucket, status);
}

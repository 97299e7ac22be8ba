//! Rows of a bucket that was given up are deleted.

ghost use Rattle.std.specs.Prelude.{◌≡◌, Ok};
ghost use Rattle.vs_machine.specs.Kinds.Collection as collection;
ghost use Rattle.vs_state.specs.Guard.{verdict};
ghost use Rattle.vs_state.specs.Plain.{plain};
ghost use Rattle.vs_core.specs.Keeps.{IsKnown, IsSound};

use crate::collecting;
use vs_base::{BucketId, SetNo};
use vs_state::State;

/// The first 1,000 rows are deleted, or all.
pub(crate) fn wipe(state: &mut State, set: SetNo, bucket: BucketId)
    requires possible { verdict (collection.wipe (plain state.old) set bucket) ≡ Ok tt }
    requires known { IsKnown (plain state.old) }
    requires sound { IsSound state.old }
    ensures step { collection.wipe (plain state.old) set bucket ≡ Ok (plain state.new) }
    ensures sound { IsSound state.new }
{
    collecting::wipe(state, set, bucket);
}

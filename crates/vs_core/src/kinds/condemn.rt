//! A bucket that was sent is given up.

ghost use Rattle.std.specs.Prelude.{◌≡◌, Ok, OnOk};
ghost use Rattle.vs_machine.specs.Kinds.Collection as collection;
ghost use Rattle.vs_state.specs.Guard.{verdict};
ghost use Rattle.vs_state.specs.Plain.{plain};
ghost use Rattle.vs_core.specs.Keeps.{IsKnown, IsSound};
ghost use Rattle.vs_core.specs.References.{HasReferenceRoom};

use crate::collecting;
use crate::references::reserve_reference;
use vs_base::{BucketId, NoMemory, SetNo};
use vs_state::State;

/// Makes room for the lock against reads.
pub(crate) fn reserve_condemn(
    state: &mut State,
    set: SetNo,
    bucket: BucketId,
) -> Result<(), NoMemory>
    requires possible { verdict (collection.condemn (plain state.old) set bucket) ≡ Ok tt }
    requires sound { IsSound state.old }
    ensures ready { OnOk result (HasReferenceRoom state.new set) }
    ensures same { plain state.new ≡ plain state.old }
    ensures sound { IsSound state.new }
{
    let _ = bucket;
    reserve_reference(state, set)
}

/// No transfer of it is live and no read of it is running: it is garbage, and no further read may begin.
pub(crate) fn condemn(state: &mut State, set: SetNo, bucket: BucketId)
    requires possible { verdict (collection.condemn (plain state.old) set bucket) ≡ Ok tt }
    requires known { IsKnown (plain state.old) }
    requires sound { IsSound state.old }
    requires ready { HasReferenceRoom state.old set }
    ensures step { collection.condemn (plain state.old) set bucket ≡ Ok (plain state.new) }
    ensures sound { IsSound state.new }
{
    collecting::condemn(state, set, bucket);
}

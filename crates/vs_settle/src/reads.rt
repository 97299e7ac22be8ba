//! What the service sees of a cluster.

ghost use Rattle.std.specs.Prelude.{◌≡◌, ◌≢◌, ◌≤◌, ℕ, false, length, MatchOption};
ghost use Rattle.vs_link.specs.Connection.{unused};
ghost use Rattle.vs_machine.specs.Kinds.Collection.{is_garbage, is_sent};
ghost use Rattle.vs_machine.specs.Runs.{IsReached};
ghost use Rattle.vs_machine.specs.State.{is_link, sets_of};
ghost use Rattle.vs_machine.specs.Settling.{HasNoMessage};
ghost use Rattle.vs_world.specs.Played.{state_of};
ghost use Rattle.vs_world.specs.World.{IsKept};
ghost use Rattle.vs_settle.specs.Messages.{IsOnLine};
ghost use Rattle.vs_settle.specs.Tasks.{receiver_in, sender_in};

use vs_base::{BucketId, SetNo};
use vs_disk::Disk;
use vs_event::Event;
use vs_machine::given_inputs;
use vs_space::Status;
use vs_world::World;

/// What is known of every cluster: a run reached its state, its disks fit it, and there are connections only between its sets.
pub(crate) fn know<D: Disk + Drop>(world: &World<D>)
    ensures reached { IsReached (state_of world.now.played) }
    ensures kept { IsKept D.told world.now }
    ensures lines { (x y : ℕ) → is_link (state_of world.now.played) x y ≡ false → (state_of world.now.played).link x y ≡ unused }
{
    let _state = world.core().state();
}

/// How many sets there are.
pub(crate) fn set_count<D: Disk + Drop>(world: &World<D>) -> u8
    ensures count { result ≡ sets_of (state_of world.now.played) }
    ensures few { result ≤ 32 }
{
    world.core().state().set_count()
}

/// How many buckets there are.
pub(crate) fn bucket_count<D: Disk + Drop>(world: &World<D>) -> u32
    ensures count { result ≡ (state_of world.now.played).config.bucket_count }
    ensures few { result ≤ 30000 }
{
    given_inputs();
    world.core().state().config.bucket_count
}

/// Whether a set is up.
pub(crate) fn is_up<D: Disk + Drop>(world: &World<D>, set: SetNo) -> bool
    ensures { result ≡ (state_of world.now.played).up set }
{
    world.core().state().up(set)
}

/// The status of a bucket at a set.
pub(crate) fn entry<D: Disk + Drop>(
    world: &World<D>,
    set: SetNo,
    bucket: BucketId,
) -> Option<Status>
    ensures { result ≡ ((state_of world.now.played).bucket bucket).entry set }
{
    world.core().state().entry(set, bucket)
}

/// The set from which a set with this entry receives the bucket, if it does.
pub(crate) fn sender_in(entry: &Option<Status>) -> Option<SetNo>
    ensures { result ≡ sender_in entry.now }
{
    match entry {
        Some(Status::Receiving(source)) => Some(*source),
        _ => None,
    }
}

/// The set to which a set with this entry sends the bucket, if it does.
pub(crate) fn receiver_in(entry: &Option<Status>) -> Option<SetNo>
    ensures { result ≡ receiver_in entry.now }
{
    match entry {
        Some(Status::Sending(dest)) => Some(*dest),
        _ => None,
    }
}

/// Whether a set with this entry sent the bucket.
pub(crate) fn is_sent(entry: &Option<Status>) -> bool
    ensures { result ≡ is_sent entry.now }
{
    matches!(entry, Some(Status::Sent(_)))
}

/// Whether a set with this entry gave the bucket up.
pub(crate) fn is_garbage(entry: &Option<Status>) -> bool
    ensures { result ≡ is_garbage entry.now }
{
    matches!(entry, Some(Status::Garbage))
}

/// How many rows of a bucket a set has.
pub(crate) fn row_count<D: Disk + Drop>(world: &World<D>, set: SetNo, bucket: BucketId) -> u64
    ensures { result ≡ length (((state_of world.now.played).bucket bucket).rows set) }
{
    world.core().state().row_count(set, bucket)
}

/// The event by which the first message between two sets is taken, or the first reply heard, if there is one.
pub(crate) fn next_message<D: Disk + Drop>(
    world: &World<D>,
    from: SetNo,
    to: SetNo,
) -> Option<Event>
    ensures { MatchOption result (HasNoMessage (state_of world.now.played) from to)
        (λ event. IsOnLine (state_of world.now.played) from to event) }
{
    let state = world.core().state();
    if state.head_call(from, to).is_some() {
        return Some(Event::Deliver(from, to));
    }
    if state.head_reply(from, to).is_some() {
        return Some(Event::Hear(from, to));
    }
    None
}

//! The entries of the buckets are brought to rest: each bucket is active or pinned at one set, and no other set has it.

ghost use Rattle.std.specs.Prelude.{◌≡◌, ◌≤◌, ◌+◌, ◌<◌, ℕ, true, IfErr, OnOk};
ghost use Rattle.vs_machine.specs.Kinds.Collection.{is_sent};
ghost use Rattle.vs_machine.specs.State.{has_bucket};
ghost use Rattle.vs_machine.specs.Settling.{IsSilent};
ghost use Rattle.vs_world.specs.Played.{state_of};
ghost use Rattle.vs_settle.specs.Service.{IsPaid, IsResting};
ghost use Rattle.vs_settle.specs.Stopped.{Goes, IsStopped};
ghost use Rattle.vs_settle.specs.Tasks.{AreDone, CanAsk, CanCollect, IsDone, IsNextEntry, IsUpTo, level, rank};
ghost use Rattle.vs_settle.specs.Weight.{weight};

use crate::carrying::carry_out;
use crate::fault::SettleFault;
use crate::reads::{
    bucket_count, entry, is_garbage, is_sent, receiver_in, row_count, sender_in, set_count,
};
use crate::steps::Steps;
use std::sync::ledger::Ledger;
use vs_base::{BucketId, SetNo};
use vs_disk::Disk;
use vs_event::Event;
use vs_world::World;

/// Which entries of a bucket are settled, in the order of the tasks.
#[derive(Clone, Copy)]
pub(crate) enum Task {
    /// Those of sets that receive it: each keeps it or throws it away, by what the sender has.
    Receivers,
    /// Those of sets that send it: each has it again, since no other set receives it.
    Senders,
    /// Those of sets that don't have it any more: they are collected.
    Leavings,
}

/// A set asks another about a bucket, and decides by the answer.
fn recover<D: Disk + Drop, L: Ledger>(
    world: &mut World<D>,
    steps: &mut Steps<L>,
    set: SetNo,
    bucket: BucketId,
    other: SetNo,
) -> Result<(), SettleFault>
    requires { CanAsk (state_of world.old.played) set bucket other }
    ensures goes { OnOk result (Goes D.told world.old steps.old world.new steps.new) }
    ensures stops { IfErr result (IsStopped D.told world.old steps.old world.new steps.new) }
    ensures spent { steps.new ≤ steps.old + weight (state_of world.old.played) }
    ensures done { OnOk result (IsDone world.old.played steps.old world.new.played steps.new set bucket 2) }
{
    carry_out(world, steps, Event::Ask(set, bucket))?;
    carry_out(world, steps, Event::Deliver(set, other))?;
    carry_out(world, steps, Event::Hear(set, other))
}

/// A set deletes the rows of a bucket that is garbage, and its entry.
fn collect<D: Disk + Drop, L: Ledger>(
    world: &mut World<D>,
    steps: &mut Steps<L>,
    set: SetNo,
    bucket: BucketId,
) -> Result<(), SettleFault>
    requires { CanCollect (state_of world.old.played) set bucket }
    ensures goes { OnOk result (Goes D.told world.old steps.old world.new steps.new) }
    ensures stops { IfErr result (IsStopped D.told world.old steps.old world.new steps.new) }
    ensures spent { steps.new ≤ steps.old + weight (state_of world.old.played) }
    ensures done { OnOk result (IsDone world.old.played steps.old world.new.played steps.new set bucket 1) }
{
    while row_count(world, set, bucket) > 0 {
        carry_out(world, steps, Event::Wipe(set, bucket))?;
    }
    carry_out(world, steps, Event::Forget(set, bucket))
}

/// A set gives up a bucket that it sent, and collects it.
fn give_up<D: Disk + Drop, L: Ledger>(
    world: &mut World<D>,
    steps: &mut Steps<L>,
    set: SetNo,
    bucket: BucketId,
) -> Result<(), SettleFault>
    requires next { IsNextEntry (state_of world.old.played) set bucket 1 }
    requires sent { is_sent (((state_of world.old.played).bucket bucket).entry set) ≡ true }
    ensures goes { OnOk result (Goes D.told world.old steps.old world.new steps.new) }
    ensures stops { IfErr result (IsStopped D.told world.old steps.old world.new steps.new) }
    ensures spent { steps.new ≤ steps.old + weight (state_of world.old.played) }
    ensures done { OnOk result (IsDone world.old.played steps.old world.new.played steps.new set bucket 1) }
{
    carry_out(world, steps, Event::Condemn(set, bucket))?;
    collect(world, steps, set, bucket)
}

/// A set that receives a bucket asks the sender.
fn settle_receiver<D: Disk + Drop, L: Ledger>(
    world: &mut World<D>,
    steps: &mut Steps<L>,
    set: SetNo,
    bucket: BucketId,
) -> Result<(), SettleFault>
    requires { IsNextEntry (state_of world.old.played) set bucket 3 }
    ensures goes { OnOk result (Goes D.told world.old steps.old world.new steps.new) }
    ensures stops { IfErr result (IsStopped D.told world.old steps.old world.new steps.new) }
    ensures spent { steps.new ≤ steps.old + weight (state_of world.old.played) }
    ensures done { OnOk result (IsDone world.old.played steps.old world.new.played steps.new set bucket 3) }
{
    match sender_in(&entry(world, set, bucket)) {
        Some(from) => recover(world, steps, set, bucket, from),
        None => Ok(()),
    }
}

/// A set that sends a bucket asks the receiver.
fn settle_sender<D: Disk + Drop, L: Ledger>(
    world: &mut World<D>,
    steps: &mut Steps<L>,
    set: SetNo,
    bucket: BucketId,
) -> Result<(), SettleFault>
    requires { IsNextEntry (state_of world.old.played) set bucket 2 }
    ensures goes { OnOk result (Goes D.told world.old steps.old world.new steps.new) }
    ensures stops { IfErr result (IsStopped D.told world.old steps.old world.new steps.new) }
    ensures spent { steps.new ≤ steps.old + weight (state_of world.old.played) }
    ensures done { OnOk result (IsDone world.old.played steps.old world.new.played steps.new set bucket 2) }
{
    match receiver_in(&entry(world, set, bucket)) {
        Some(to) => recover(world, steps, set, bucket, to),
        None => Ok(()),
    }
}

/// A set that doesn't have a bucket any more collects it.
fn settle_leavings<D: Disk + Drop, L: Ledger>(
    world: &mut World<D>,
    steps: &mut Steps<L>,
    set: SetNo,
    bucket: BucketId,
) -> Result<(), SettleFault>
    requires { IsNextEntry (state_of world.old.played) set bucket 1 }
    ensures goes { OnOk result (Goes D.told world.old steps.old world.new steps.new) }
    ensures stops { IfErr result (IsStopped D.told world.old steps.old world.new steps.new) }
    ensures spent { steps.new ≤ steps.old + weight (state_of world.old.played) }
    ensures done { OnOk result (IsDone world.old.played steps.old world.new.played steps.new set bucket 1) }
{
    let entry = entry(world, set, bucket);
    if is_sent(&entry) {
        return give_up(world, steps, set, bucket);
    }
    if is_garbage(&entry) {
        return collect(world, steps, set, bucket);
    }
    Ok(())
}

/// A set settles its entry of a bucket, where the task is of it.
fn settle_entry<D: Disk + Drop, L: Ledger>(
    world: &mut World<D>,
    steps: &mut Steps<L>,
    task: Task,
    set: SetNo,
    bucket: BucketId,
) -> Result<(), SettleFault>
    requires { IsNextEntry (state_of world.old.played) set bucket (level task) }
    ensures goes { OnOk result (Goes D.told world.old steps.old world.new steps.new) }
    ensures stops { IfErr result (IsStopped D.told world.old steps.old world.new steps.new) }
    ensures spent { steps.new ≤ steps.old + weight (state_of world.old.played) }
    ensures done { OnOk result (IsDone world.old.played steps.old world.new.played steps.new set bucket (level task)) }
{
    match task {
        Task::Receivers => settle_receiver(world, steps, set, bucket),
        Task::Senders => settle_sender(world, steps, set, bucket),
        Task::Leavings => settle_leavings(world, steps, set, bucket),
    }
}

/// All sets settle their entries of a bucket, as far as the task goes.
fn settle_sets<D: Disk + Drop, L: Ledger>(
    world: &mut World<D>,
    steps: &mut Steps<L>,
    task: Task,
    bucket: BucketId,
) -> Result<(), SettleFault>
    requires rests { IsResting (state_of world.old.played) }
    requires silent { IsSilent (state_of world.old.played) }
    requires bucket { has_bucket (state_of world.old.played) bucket ≡ true }
    requires ranks { IsUpTo (state_of world.old.played) bucket (level task) }
    ensures goes { OnOk result (Goes D.told world.old steps.old world.new steps.new) }
    ensures stops { IfErr result (IsStopped D.told world.old steps.old world.new steps.new) }
    ensures spent { steps.new ≤ steps.old + weight (state_of world.old.played) }
    ensures done { OnOk result (AreDone world.old.played steps.old world.new.played steps.new bucket (level task)) }
{
    let count = set_count(world);
    for index in 0..count {
        let Some(set) = SetNo::new(index + 1) else {
            unreachable!()
        };
        settle_entry(world, steps, task, set, bucket)?;
    }
    Ok(())
}

/// A bucket is brought to rest at all sets.
fn settle_bucket<D: Disk + Drop, L: Ledger>(
    world: &mut World<D>,
    steps: &mut Steps<L>,
    bucket: BucketId,
) -> Result<(), SettleFault>
    requires rests { IsResting (state_of world.old.played) }
    requires silent { IsSilent (state_of world.old.played) }
    requires bucket { has_bucket (state_of world.old.played) bucket ≡ true }
    ensures goes { OnOk result (Goes D.told world.old steps.old world.new steps.new) }
    ensures stops { IfErr result (IsStopped D.told world.old steps.old world.new steps.new) }
    ensures spent { steps.new ≤ steps.old + weight (state_of world.old.played) }
    ensures done { OnOk result (AreDone world.old.played steps.old world.new.played steps.new bucket 1) }
{
    settle_sets(world, steps, Task::Receivers, bucket)?;
    settle_sets(world, steps, Task::Senders, bucket)?;
    settle_sets(world, steps, Task::Leavings, bucket)
}

/// All buckets are brought to rest.
pub(crate) fn settle_buckets<D: Disk + Drop, L: Ledger>(
    world: &mut World<D>,
    steps: &mut Steps<L>,
) -> Result<(), SettleFault>
    requires rests { IsResting (state_of world.old.played) }
    requires silent { IsSilent (state_of world.old.played) }
    ensures goes { OnOk result (Goes D.told world.old steps.old world.new steps.new) }
    ensures stops { IfErr result (IsStopped D.told world.old steps.old world.new steps.new) }
    ensures spent { steps.new ≤ steps.old + weight (state_of world.old.played) }
    ensures silent { OnOk result (IsSilent (state_of world.new.played)) }
    ensures ranks { OnOk result ((b y : ℕ) → has_bucket (state_of world.new.played) b ≡ true
        → rank (((state_of world.new.played).bucket b).entry y) < 1) }
{
    for index in 0..bucket_count(world) {
        let Some(bucket) = BucketId::new(index + 1) else {
            unreachable!()
        };
        settle_bucket(world, steps, bucket)?;
    }
    Ok(())
}

//! How the asks of a set are written, and what comes of their answers. No call takes memory but that which makes room.

ghost use Rattle.std.specs.Prelude.{◌≡◌, ◌≤◌, ◌==◌, ℕ, if◌then◌else◌, OnOk, Some, None};
ghost use Rattle.vs_recover.specs.Asks.{ask_of};
ghost use Rattle.vs_space.specs.Status.{MayChange};
ghost use Rattle.vs_space.specs.declared.status.Status.TheVariants.{Active, Garbage};
ghost use Rattle.vs_state.specs.Plain.{entry_in};
ghost use Rattle.vs_core.specs.Cells.{cell, HasCell, SameRefs, SameTables};
ghost use Rattle.vs_core.specs.Hearing.{LocksReads};

use crate::statuses::set_status;
use vs_base::{BucketId, Mode, NoMemory};
use vs_recover::Asks;
use vs_space::Status;
use vs_state::SetTables;

/// Sets the ask of a bucket.
#[tactic(auto, using(crate::proofs::Asked::ask_set))]
fn put(asks: &mut Asks, bucket: BucketId, epoch: u64, sync: u64)
    requires { 1 ≤ asks.old.room }
    ensures { (q : ℕ) → ask_of asks.new.items q ≡
        (if q == bucket then Some (epoch, sync) else ask_of asks.old.items q) }
{
    asks.put(bucket, epoch, sync);
}

/// Ends the ask of a bucket.
#[tactic(auto, using(crate::proofs::Asked::ask_set))]
fn end(asks: &mut Asks, bucket: BucketId)
    ensures { (q : ℕ) → ask_of asks.new.items q ≡ (if q == bucket then None else ask_of asks.old.items q) }
{
    asks.drop_ask(bucket);
}

/// Makes room for one more ask.
pub(crate) fn reserve_ask(tables: &mut SetTables) -> Result<(), NoMemory>
    ensures room { OnOk result (1 ≤ tables.new.asks.room) }
    ensures same { SameTables tables.old tables.new }
{
    tables.asks.reserve()
}

/// A bucket was asked about, on a connection of this epoch, by the message of this number.
pub(crate) fn put_ask(tables: &mut SetTables, bucket: BucketId, epoch: u64, sync: u64)
    requires { 1 ≤ tables.old.asks.room }
    ensures asked { HasCell tables.old tables.new bucket
        (record (cell tables.old bucket) { ask = Some (record { epoch = epoch; sync = sync }) }) }
    ensures refs { SameRefs tables.old tables.new }
{
    put(&mut tables.asks, bucket, epoch, sync);
}

/// The ask of a bucket has ended.
pub(crate) fn end_ask(tables: &mut SetTables, bucket: BucketId)
    ensures ended { HasCell tables.old tables.new bucket (record (cell tables.old bucket) { ask = None }) }
    ensures refs { SameRefs tables.old tables.new }
{
    end(&mut tables.asks, bucket);
}

/// A bucket that was asked about is active, and its ask has ended.
pub(crate) fn settle_active(tables: &mut SetTables, bucket: BucketId)
    requires { MayChange (entry_in tables.old bucket) (Some Active) }
    ensures active { HasCell tables.old tables.new bucket
        (record (cell tables.old bucket) { entry = Some Active; ask = None }) }
    ensures refs { SameRefs tables.old tables.new }
{
    set_status(&mut tables.space, bucket, Status::Active);
    end(&mut tables.asks, bucket);
}

/// A bucket that was asked about is garbage, of which no read begins any more, and its ask has ended.
pub(crate) fn settle_garbage(tables: &mut SetTables, bucket: BucketId)
    requires may { MayChange (entry_in tables.old bucket) (Some Garbage) }
    requires room { 1 ≤ tables.old.refs.room }
    ensures garbage { HasCell tables.old tables.new bucket
        (record (cell tables.old bucket) { entry = Some Garbage; ask = None }) }
    ensures locks { LocksReads tables.old tables.new bucket }
{
    set_status(&mut tables.space, bucket, Status::Garbage);
    tables.refs.lock(bucket, Mode::Ro);
    end(&mut tables.asks, bucket);
}

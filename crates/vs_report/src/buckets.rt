//! The lines of the buckets.

ghost use Rattle.std.specs.Prelude.{◌++◌, Some, None, All, length, codes, OnOk};
ghost use Rattle.std.specs.List.{flat_map};
ghost use Rattle.vs_space.specs.Entries.{RisesFrom};
ghost use Rattle.vs_machine.specs.Report.{lines, entry_text, bucket_line, numbers_to};
ghost use Rattle.vs_state.specs.Plain.{plain, entry_in};
ghost use Rattle.vs_state.specs.Sized.{IsSized};
ghost use Rattle.vs_state.specs.Tables.{numbered};
ghost use Rattle.vs_report.specs.Adds.{Adds};
ghost use Rattle.vs_report.specs.PlacementText.{places_text, placement_text};

use crate::statuses::put_status;
use crate::words::{put_number, put_text};
use vs_base::{BucketId, NoMemory, SetNo};
use vs_space::Status;
use vs_state::{SetTables, State};

/// Appends a set and the status of the bucket there.
fn put_entry(out: &mut Vec<u8>, set: u64, status: Status) -> Result<(), NoMemory>
    ensures { OnOk result (Adds out.old out.new (entry_text set (Some status))) }
{
    put_number(out, set)?;
    put_text(out, b" ")?;
    put_status(out, status)
}

/// Appends each set that has an entry of the bucket, and the status there.
fn put_entries(out: &mut Vec<u8>, sets: &[SetTables], bucket: BucketId) -> Result<(), NoMemory>
    ensures { OnOk result (Adds out.old out.new
        (flat_map
        (λ x. entry_text x (numbered (λ t. entry_in t bucket) None sets.now x))
        (numbers_to (length sets.now)))) }
{
    for (i, tables) in sets.iter().enumerate() {
        if let Some(status) = tables.space.get(bucket) {
            put_entry(out, i as u64 + 1, status)?;
        }
    }
    Ok(())
}

/// Appends the line of a bucket. No set has an entry at a number that no bucket can have.
fn put_bucket(out: &mut Vec<u8>, state: &State, bucket: u32) -> Result<(), NoMemory>
    requires sized { IsSized state.now }
    requires order { All (λ t. RisesFrom 1 t.space.entries) state.now.sets.items }
    ensures { OnOk result (Adds out.old out.new (bucket_line (plain state.now) bucket ++ codes "\n")) }
{
    put_text(out, b"bucket")?;
    put_number(out, u64::from(bucket))?;
    if let Some(id) = BucketId::new(bucket) {
        put_entries(out, &state.sets, id)?;
    }
    put_text(out, b"\n")
}

/// Appends these sets, each with its status.
fn put_places(out: &mut Vec<u8>, entries: &[(SetNo, Status)]) -> Result<(), NoMemory>
    ensures { OnOk result (Adds out.old out.new (places_text entries.now)) }
{
    for (set, status) in entries {
        put_entry(out, u64::from(set.get()), *status)?;
    }
    Ok(())
}

/// Appends the words of a bucket's line: the bucket, and these sets with the status of it there.
pub fn put_placement(
    out: &mut Vec<u8>,
    bucket: BucketId,
    entries: &[(SetNo, Status)],
) -> Result<(), NoMemory>
    ensures { OnOk result (Adds out.old out.new (placement_text bucket entries.now)) }
{
    put_text(out, b"bucket")?;
    put_number(out, u64::from(bucket.get()))?;
    put_places(out, entries)
}

/// Appends the lines of the buckets.
pub fn put_buckets(out: &mut Vec<u8>, state: &State) -> Result<(), NoMemory>
    requires sized { IsSized state.now }
    requires order { All (λ t. RisesFrom 1 t.space.entries) state.now.sets.items }
    ensures { OnOk result (Adds out.old out.new
        (lines (bucket_line (plain state.now)) (numbers_to (plain state.now).config.bucket_count))) }
{
    for i in 0..state.config.bucket_count {
        put_bucket(out, state, i + 1)?;
    }
    Ok(())
}

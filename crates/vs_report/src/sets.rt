//! The lines of the cluster and of its sets.

ghost use Rattle.std.specs.Prelude.{◌≡◌, ◌≢◌, ◌++◌, ℕ, None, true, All, codes, OnOk};
ghost use Rattle.std.specs.List.{flat_map};
ghost use Rattle.vs_space.specs.Entries.{RisesFrom, count_of};
ghost use Rattle.vs_machine.specs.State as machine;
ghost use Rattle.vs_machine.specs.Report.{number, kinds, lines, cluster_line, set_line, numbers_to};
ghost use Rattle.vs_state.specs.Plain.{plain};
ghost use Rattle.vs_state.specs.Sized.{IsSized};
ghost use Rattle.vs_report.specs.Adds.{Adds};
ghost use Rattle.vs_report.specs.SetText.{set_text};

use crate::words::{put_number, put_text};
use vs_base::NoMemory;
use vs_space::{Space, StatusKind};
use vs_state::{SetTables, State};

/// Appends the line of the cluster: how many sets and buckets it has.
pub fn put_cluster(out: &mut Vec<u8>, state: &State) -> Result<(), NoMemory>
    ensures { OnOk result (Adds out.old out.new (cluster_line (plain state.now) ++ codes "\n")) }
{
    put_text(out, b"cluster")?;
    put_number(out, state.config.sets.len() as u64)?;
    put_number(out, u64::from(state.config.bucket_count))?;
    put_text(out, b"\n")
}

/// Appends how many buckets have a status of each kind.
fn put_counts(out: &mut Vec<u8>, space: &Space) -> Result<(), NoMemory>
    ensures text { OnOk result (Adds out.old out.new
        (flat_map (λ k. number (count_of k space.now.entries)) kinds)) }
    ensures order { RisesFrom 1 space.now.entries }
{
    put_number(out, u64::from(space.count(StatusKind::Active)))?;
    put_number(out, u64::from(space.count(StatusKind::Pinned)))?;
    put_number(out, u64::from(space.count(StatusKind::Sending)))?;
    put_number(out, u64::from(space.count(StatusKind::Receiving)))?;
    put_number(out, u64::from(space.count(StatusKind::Sent)))?;
    put_number(out, u64::from(space.count(StatusKind::Garbage)))
}

/// Appends the line of a set: whether it is up, and its counts.
fn put_set(out: &mut Vec<u8>, set: u64, tables: &SetTables) -> Result<(), NoMemory>
    ensures text { OnOk result (Adds out.old out.new (set_text set tables.now ++ codes "\n")) }
    ensures order { OnOk result (RisesFrom 1 tables.now.space.entries) }
{
    put_text(out, b"set")?;
    put_number(out, set)?;
    put_text(out, if tables.is_up { b" up" } else { b" down" })?;
    put_counts(out, &tables.space)?;
    put_text(out, b"\n")
}

/// Appends the lines of the sets.
pub fn put_sets(out: &mut Vec<u8>, state: &State) -> Result<(), NoMemory>
    requires sized { IsSized state.now }
    requires within { (b x : ℕ) → ((plain state.now).bucket b).entry x ≢ None
        → machine.has_bucket (plain state.now) b ≡ true }
    ensures text { OnOk result (Adds out.old out.new
        (lines (set_line (plain state.now)) (numbers_to (machine.sets_of (plain state.now))))) }

    // What `count` tells of the entries of each set, for the lines that follow.
    ensures order { OnOk result (All (λ t. RisesFrom 1 t.space.entries) state.now.sets.items) }
{
    for (i, tables) in state.sets.iter().enumerate() {
        put_set(out, i as u64 + 1, tables)?;
    }
    Ok(())
}

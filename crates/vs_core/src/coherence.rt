//! Whether what the sets have of a bucket fits together.

ghost use Rattle.std.specs.Prelude.{◌≡◌, ◌≢◌, ◌≤◌, ◌↔◌, ℕ, [], IsTrue, Some, IfOk, MatchOption};
ghost use Rattle.std.specs.Bool.{OnTrue};
ghost use Rattle.vs_rows.specs.RowMap.{IsRising};
ghost use Rattle.vs_machine.specs.Coherence.{names, owner_at};
ghost use Rattle.vs_machine.specs.Inner.Owner.{Beside};
ghost use Rattle.vs_machine.specs.Kinds.Connections.{is_receiving};
ghost use Rattle.vs_machine.specs.State as machine;
ghost use Rattle.vs_machine.specs.Tables.{least_to};
ghost use Rattle.vs_state.specs.Plain.{plain};
ghost use Rattle.vs_core.specs.Opened.{IsLeastIncoherent, IsCoherentAt, placement_of};
ghost use Rattle.vs_core.specs.Opening.{HasItsSets, IsFitting, held_in, has_it};

use crate::fault::Placement;
use vs_base::{BucketId, NoMemory, SetNo};
use vs_space::Status;
use vs_state::State;

/// The set that an entry names.
fn named(entry: &Option<Status>) -> Option<SetNo>
    ensures { result ≡ names entry.now }
{
    match entry {
        Some(Status::Sending(other)) => Some(*other),
        Some(Status::Receiving(other)) => Some(*other),
        Some(Status::Sent(other)) => Some(*other),
        _ => None,
    }
}

/// Whether the set that an entry names, where it names one, is another of so many sets.
fn names_another(entry: &Option<Status>, set: SetNo, count: usize) -> bool
    ensures { IsTrue result ↔ ((y : ℕ) → names entry.now ≡ Some y → (y ≢ set) × (1 ≤ y) × (y ≤ count)) }
{
    match named(entry) {
        Some(other) => other != set && usize::from(other.get()) <= count,
        None => true,
    }
}

/// Whether a set may have this entry beside that of the bucket's owner.
fn is_beside(owner: SetNo, owned: &Option<Status>, set: SetNo, entry: &Option<Status>) -> bool
    ensures { IsTrue result ↔ Beside owner owned.now set entry.now }
{
    match entry {
        None | Some(Status::Garbage) => true,
        Some(Status::Sent(dest)) => *owned != Some(Status::Receiving(set)) || *dest == owner,
        Some(Status::Receiving(source)) => {
            *source == owner && *owned == Some(Status::Sending(set))
        }
        Some(Status::Active | Status::Pinned | Status::Sending(_)) => false,
    }
}

/// Whether an entry is of a set that takes reads: the bucket is active, pinned or being sent there.
fn has_it(entry: &Option<Status>) -> bool
    ensures { result ≡ has_it entry.now }
{
    matches!(
        entry,
        Some(Status::Active | Status::Pinned | Status::Sending(_))
    )
}

/// Whether an entry is of a bucket that is being received.
fn is_receiving(entry: &Option<Status>) -> bool
    ensures { result ≡ is_receiving entry.now }
{
    matches!(entry, Some(Status::Receiving(_)))
}

/// The first set where a bucket is active, pinned or being sent.
fn first_having(state: &State, bucket: BucketId) -> Option<SetNo>
    requires { HasItsSets state.now }
    ensures { result ≡ least_to (λ x. has_it (((plain state.now).bucket bucket).entry x)) (machine.sets_of (plain state.now)) }
{
    let count = state.config.sets.len() as u8;
    for index in 0..count {
        let set = SetNo::new(index + 1)?;
        if has_it(&state.entry(set, bucket)) {
            return Some(set);
        }
    }
    None
}

/// The first set that receives a bucket.
fn first_receiving(state: &State, bucket: BucketId) -> Option<SetNo>
    requires { HasItsSets state.now }
    ensures { result ≡ least_to (λ x. is_receiving (((plain state.now).bucket bucket).entry x)) (machine.sets_of (plain state.now)) }
{
    let count = state.config.sets.len() as u8;
    for index in 0..count {
        let set = SetNo::new(index + 1)?;
        if is_receiving(&state.entry(set, bucket)) {
            return Some(set);
        }
    }
    None
}

/// The set that owns a bucket by the entries.
pub(crate) fn owner(state: &State, bucket: BucketId) -> Option<SetNo>
    requires { HasItsSets state.now }
    ensures { result ≡ owner_at ((plain state.now).bucket bucket).entry (machine.sets_of (plain state.now)) }
{
    match first_having(state, bucket) {
        Some(set) => Some(set),
        None => first_receiving(state, bucket),
    }
}

/// Whether a set has no rows of a bucket.
fn has_no_rows(state: &State, set: SetNo, bucket: BucketId) -> bool
    ensures none { IsTrue result ↔ (((plain state.now).bucket bucket).rows set ≡ []) }
    ensures rising { IsRising (((plain state.now).bucket bucket).rows set) }
{
    match state.rows(set, bucket) {
        Some(rows) => rows.len() == 0,
        None => true,
    }
}

/// Whether what a set has of a bucket fits to the bucket's owner.
fn fits(state: &State, bucket: BucketId, owner: SetNo, set: SetNo) -> bool
    ensures fits { IsTrue result ↔ IsFitting (plain state.now) bucket owner set }
    ensures rising { IsRising (((plain state.now).bucket bucket).rows set) }
{
    let no_rows = has_no_rows(state, set, bucket);
    let entry = state.entry(set, bucket);
    if !names_another(&entry, set, state.config.sets.len()) {
        return false;
    }
    if entry.is_none() && !no_rows {
        return false;
    }
    set == owner || is_beside(owner, &state.entry(owner, bucket), set, &entry)
}

/// Whether what all sets have of a bucket fits to its owner.
fn all_fit(state: &State, bucket: BucketId, owner: SetNo) -> bool
    requires { HasItsSets state.now }
    ensures fit { IsTrue result ↔ ((x : ℕ) → IsFitting (plain state.now) bucket owner x) }
    ensures rising { OnTrue result ((x : ℕ) → IsRising (((plain state.now).bucket bucket).rows x)) }
{
    let count = state.config.sets.len() as u8;
    for index in 0..count {
        let Some(set) = SetNo::new(index + 1) else {
            unreachable!()
        };
        if !fits(state, bucket, owner, set) {
            return false;
        }
    }
    true
}

/// Whether what the sets have of a bucket fits together.
fn is_coherent(state: &State, bucket: BucketId) -> bool
    requires { HasItsSets state.now }
    ensures coherent { IsTrue result ↔ IsCoherentAt (machine.sets_of (plain state.now)) (held_in (plain state.now)) bucket }
    ensures rising { OnTrue result ((x : ℕ) → IsRising (((plain state.now).bucket bucket).rows x)) }
{
    match owner(state, bucket) {
        Some(owner) => all_fit(state, bucket, owner),
        None => false,
    }
}

/// The first bucket of which what the sets have doesn't fit together.
pub(crate) fn first_incoherent(state: &State) -> Option<BucketId>
    requires { HasItsSets state.now }
    ensures { MatchOption result
        ((b : ℕ) → 1 ≤ b → b ≤ (plain state.now).config.bucket_count
        → IsCoherentAt (machine.sets_of (plain state.now)) (held_in (plain state.now)) b
        × ((x : ℕ) → IsRising (((plain state.now).bucket b).rows x)))
        (λ b. IsLeastIncoherent (machine.sets_of (plain state.now)) (plain state.now).config.bucket_count
        (held_in (plain state.now)) b) }
{
    for before in 0..state.config.bucket_count {
        let Some(bucket) = BucketId::new(before + 1) else {
            unreachable!()
        };
        if !is_coherent(state, bucket) {
            return Some(bucket);
        }
    }
    None
}

/// Which sets have an entry of a bucket, and with which status.
pub(crate) fn placement(state: &State, bucket: BucketId) -> Result<Placement, NoMemory>
    requires { HasItsSets state.now }
    ensures { IfOk result (λ entries. entries.items
        ≡ placement_of ((plain state.now).bucket bucket).entry (machine.sets_of (plain state.now))) }
{
    let mut entries = Placement::new(*state.sets.allocator());
    let count = state.config.sets.len() as u8;
    for index in 0..count {
        let Some(set) = SetNo::new(index + 1) else {
            unreachable!()
        };
        if let Some(status) = state.entry(set, bucket) {
            entries.reserve()?;
            entries.push((set, status));
        }
    }
    Ok(entries)
}

//! Which buckets a set serves. Only a page takes memory.

ghost use Rattle.std.specs.Prelude.{◌≡◌, ◌≤◌, ◌++◌, ◌∷◌, [], IfOk, OnOk};
ghost use Rattle.vs_core.specs.Core.{means};
ghost use Rattle.vs_state.specs.Plain.{plain};
ghost use Rattle.vs_state.specs.Serving.{serves};
ghost use Rattle.vs_survey.specs.Readers as readers;

use vs_base::{BucketId, Items, NoMemory, SetNo};
use vs_core::Core;
use vs_state::State;

/// The ids of buckets.
pub type Ids = Items<BucketId>;

/// So many ids are in a page at most.
const PAGE: usize = 1_000;

/// Whether a bucket comes after this one, where one is given.
fn is_above(after: &Option<BucketId>, bucket: BucketId) -> bool
    ensures { result ≡ readers.is_above after.now bucket }
{
    match after {
        Some(last) => *last < bucket,
        None => true,
    }
}

/// Whether a bucket is to stand in the pages after this one.
fn is_listed(state: &State, set: SetNo, after: &Option<BucketId>, bucket: BucketId) -> bool
    ensures { result ≡ readers.is_listed (plain state.now) set after.now bucket }
{
    is_above(after, bucket) && state.serves(set, bucket)
}

/// Adds an id.
fn add(ids: &mut Ids, bucket: BucketId) -> Result<(), NoMemory>
    ensures { OnOk result (ids.new.items ≡ ids.old.items ++ bucket ∷ []) }
{
    ids.reserve()?;
    ids.push(bucket);
    Ok(())
}

/// The first buckets above `after` that a set serves.
fn page_of(state: &State, set: SetNo, after: &Option<BucketId>) -> Result<Ids, NoMemory>
    requires { state.now.config.bucket_count ≤ 30000 }
    ensures { IfOk result (λ ids. ids.items ≡ readers.page (plain state.now) set after.now) }
{
    let mut ids = Ids::new(*state.sets.allocator());
    for before in 0..state.config.bucket_count {
        if ids.len() == PAGE {
            return Ok(ids);
        }
        let Some(bucket) = BucketId::new(before + 1) else {
            unreachable!()
        };
        if is_listed(state, set, after, bucket) {
            add(&mut ids, bucket)?;
        }
    }
    Ok(ids)
}

/// Whether a set is up and would grant a read of a bucket.
pub fn serves(core: &Core, set: SetNo, bucket: BucketId) -> bool
    ensures { result ≡ serves (means core.now) set bucket }
{
    core.state().serves(set, bucket)
}

/// The first 1,000 buckets above `after` that a set serves, in rising order. The next page comes after its last id.
pub fn page(core: &Core, set: SetNo, after: Option<BucketId>) -> Result<Ids, NoMemory>
    ensures { IfOk result (λ ids. ids.items ≡ readers.page (means core.now) set after) }
{
    page_of(core.state(), set, &after)
}

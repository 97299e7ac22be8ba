//! To which set a client's call is posted.

ghost use Rattle.std.specs.Prelude.{◌≡◌, ◌≤◌, ◌∷◌, [], ℕ, IfOk, IfSome, IfNone, IsTrue, length, option_map};
ghost use Rattle.vs_cluster.specs.Calls.{IsPostAllowed};
ghost use Rattle.vs_machine.specs.State as machine;
ghost use Rattle.vs_machine.specs.Tables.{least_to, list_to};
ghost use Rattle.vs_router.specs.Known.{known_of};
ghost use Rattle.vs_script.specs.Calls as script;
ghost use Rattle.vs_state.specs.Plain.{plain};
ghost use Rattle.vs_state.specs.Sized.{IsSized};
ghost use Rattle.vs_world.specs.Played.{state_of};
ghost use Rattle.vs_machine.specs.Driven.{would_grant};
ghost use Rattle.vs_drive.specs.Posting.{said_at, cached, first_set, further_sets, set_round, IsFirstAllowed};

use crate::standing::state_in;
use std::alloc::Global;
use vs_base::{BucketId, ClientNo, NoMemory, SetNo};
use vs_cluster::Cluster;
use vs_disk::Disk;
use vs_router::{Router, SetSaid};
use vs_script::Call;
use vs_space::{Verdict, verdict};
use vs_state::State;

/// What each set says of a bucket.
fn said(alloc: Global, state: &State, bucket: BucketId) -> Result<Vec<SetSaid>, NoMemory>
    requires { IsSized state.now }
    ensures { IfOk result (λ said. said.items ≡ list_to (said_at (plain state.now) bucket) (machine.sets_of (plain state.now))) }
{
    let mut said = Vec::with_capacity(alloc, usize::from(state.set_count()))?;
    for index in 0..state.set_count() {
        let Some(set) = SetNo::new(index + 1) else {
            unreachable!()
        };
        said.push(SetSaid {
            set,
            up: state.up(set),
            serves: state.serves(set, bucket),
        })?;
    }
    Ok(said)
}

/// Set 1.
fn set_one() -> SetNo
    ensures { result ≡ 1 }
{
    match SetNo::new(1) {
        Some(set) => set,
        None => unreachable!(),
    }
}

/// The set to which a call is posted first: the one that is cached for its bucket, else the lowest that serves it, which is cached
/// then, else set 1.
pub fn first_set(
    alloc: Global,
    state: &State,
    router: &mut Router,
    bucket: BucketId,
) -> Result<SetNo, NoMemory>
    requires sized { IsSized state.now }
    requires known { bucket ≤ length router.old }
    ensures set { IfOk result (λ set. set ≡ first_set (plain state.now) (cached router.old bucket) bucket) }
    ensures router { length router.new ≡ length router.old }
{
    if let Some(set) = router.cached(bucket) {
        return Ok(set);
    }
    let said = said(alloc, state, bucket)?;
    match router.search(bucket, &said) {
        Some(set) => Ok(set),
        None => Ok(set_one()),
    }
}

/// Whether a set would grant a call.
fn would_grant(state: &State, set: SetNo, call: &Call) -> bool
    ensures { result ≡ would_grant (plain state.now) set (script.call call.now) }
{
    if !state.up(set) {
        return false;
    }
    let is_locked = state.is_draining(set, call.bucket);
    match verdict(state.entry(set, call.bucket), is_locked, call.mode) {
        Verdict::Granted => true,
        Verdict::Refused(_) => false,
    }
}

/// The lowest set that would grant a call.
fn granting_set(state: &State, call: &Call) -> Option<SetNo>
    requires { IsSized state.now }
    ensures { result ≡ least_to (λ x. would_grant (plain state.now) x (script.call call.now)) (machine.sets_of (plain state.now)) }
{
    for index in 0..state.set_count() {
        let Some(set) = SetNo::new(index + 1) else {
            unreachable!()
        };
        if would_grant(state, set, call) {
            return Some(set);
        }
    }
    None
}

/// The sets in turn: with each try the next one.
fn set_by_tries(state: &State, tries: u8) -> Option<SetNo>
    requires { IsSized state.now }
    ensures { result ≡ set_round (machine.sets_of (plain state.now)) tries }
{
    let sets = state.set_count();
    if sets == 0 {
        return None;
    }
    SetNo::new(1 + tries % sets)
}

/// The set, where the client's call may be posted there.
pub fn if_steered<D: Disk + Drop>(
    cluster: &Cluster<D>,
    client: ClientNo,
    set: Option<SetNo>,
) -> Option<SetNo>
    ensures { IsFirstAllowed (IsPostAllowed cluster.now client) (set ∷ []) result }
{
    let set = set?;
    if cluster.steered(client, set) {
        Some(set)
    } else {
        None
    }
}

/// The set to which a refused call is posted again: the one that is cached for its bucket, as a hint; else the lowest that would
/// grant it; else by the number of its tries; each only where that is steered.
pub fn further_set<D: Disk + Drop>(
    cluster: &Cluster<D>,
    client: ClientNo,
    cached: Option<SetNo>,
    call: &Call,
) -> Option<SetNo>
    ensures { IsFirstAllowed (IsPostAllowed cluster.now client) (further_sets (state_of cluster.now.world.played) client cached (script.call call.now)) result }
{
    if let Some(set) = if_steered(cluster, client, cached) {
        return Some(set);
    }
    let state = state_in(cluster);
    if let Some(set) = if_steered(cluster, client, granting_set(state, call)) {
        return Some(set);
    }
    if_steered(cluster, client, set_by_tries(state, state.tries(client)))
}

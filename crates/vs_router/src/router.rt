//! The cache of a router.

ghost use Rattle.std.specs.Prelude.{◌≡◌, ◌≤◌, ◌<◌, ◌+◌, ◌^◌, None, Some, length, min, replicate, IfOk, MatchOption};
ghost use Rattle.std.specs.List.{All};
ghost use Rattle.std.specs.Option.{option_map};
ghost use Rattle.vs_router.specs.Said.{IsLowestServing};

use crate::said::SetSaid;
use std::alloc::Global;
use std::marker::Model;
use vs_base::{BucketId, Ids, NoMemory, SetNo};
use vs_space::Cause;

/// The set that a router takes a bucket to be at, and whether that is a hint: a destination that a
/// refusal named.
#[derive(Clone, Copy)]
pub struct Known {
    pub set: SetNo,
    pub hint: bool,
}

/// The router of a client. As in vshard it caches where buckets are, and refusals correct it.
/// Contracts see what is cached for each bucket, in the buckets' order.
#[derive(Drop)]
pub struct Router {
    known: Vec<Option<Known>>,
}

impl Model for Router {
    ghost use Rattle.std.specs.Prelude.{List, Option, ◌<◌, ◌^◌, length};
    ghost use Rattle.vs_router.specs.declared.router.Known.{Known};

    ghost Value = { List (Option Known) };

    ghost view = { λ r. r.known.items };

    ghost invariant = { λ r. length r.known.items < 2 ^ 32 };
}

// The place of a bucket in the cache.
fn place_of(id: BucketId) -> usize
    ensures { result + 1 ≡ id }
{
    id.get() as usize - 1
}

// The lower of the lowest set so far and this one.
fn lower(lowest: Option<SetNo>, set: SetNo) -> SetNo
    ensures { MatchOption lowest (result ≡ set) (λ other. result ≡ min other set) }
{
    match lowest {
        Some(other) if other <= set => other,
        _ => set,
    }
}

// The lowest set that is up and serves.
fn lowest_serving(said: &[SetSaid]) -> Option<SetNo>
    ensures { IsLowestServing said.now result }
{
    let mut lowest = None;
    for one in said {
        if one.grants() {
            lowest = Some(lower(lowest, one.set));
        }
    }
    lowest
}

impl Router {
    ghost use Rattle.vs_router.specs.Known.{known_of, found, after_refusal, Sets, Learns};

    /// A router for this number of buckets, with nothing cached.
    pub fn new(alloc: Global, bucket_count: u32) -> Result<Router, NoMemory>
        ensures { IfOk result (λ router. router ≡ replicate bucket_count None) }
    {
        let mut known = Vec::new(alloc);
        known.resize(bucket_count as usize, None)?;
        Ok(Router { known })
    }

    /// The number of buckets for which it was made.
    pub fn buckets(&self) -> u32
        ensures { result ≡ length self.now }
    {
        self.known.len() as u32
    }

    /// Caches this set for each of these buckets.
    pub fn learn(&mut self, set: SetNo, ids: &Ids)
        requires { All (λ id. id ≤ length self.old) ids.now.items }
        ensures { Learns self.old self.new set ids.now.items }
    {
        for id in ids.as_slice() {
            self.known[place_of(*id)] = Some(Known { set, hint: false });
        }
    }

    /// The set that is cached for this bucket.
    pub fn cached(&self, id: BucketId) -> Option<SetNo>
        requires { id ≤ length self.now }
        ensures { result ≡ option_map (λ known. known.set) (known_of self.now id) }
    {
        self.known[place_of(id)].map(|known| known.set)
    }

    /// The lowest set that is up and serves the bucket, by what the sets say; it is cached.
    pub fn search(&mut self, id: BucketId, said: &[SetSaid]) -> Option<SetNo>
        requires { id ≤ length self.old }
        ensures lowest { IsLowestServing said.now result }
        ensures cached { MatchOption result
            (self.new ≡ self.old)
            (λ set. Sets self.old self.new id (Some (found set))) }
    {
        let set = lowest_serving(said)?;
        self.known[place_of(id)] = Some(Known { set, hint: false });
        Some(set)
    }

    /// Corrects what is cached for this bucket after a refusal. A lock keeps it. A destination is
    /// cached as a hint, and is followed once: where a hint was followed already, nothing stays.
    /// Every other cause drops what was cached.
    pub fn refused(&mut self, id: BucketId, cause: Cause)
        requires { id ≤ length self.old }
        ensures { Sets self.old self.new id (after_refusal (known_of self.old id) cause) }
    {
        let place = place_of(id);
        self.known[place] = match (self.known[place], cause) {
            (known, Cause::BucketIsLocked) => known,
            (Some(Known { hint: true, .. }), Cause::WrongBucket(Some(_))) => None,
            (_, Cause::WrongBucket(Some(set))) => Some(Known { set, hint: true }),
            _ => None,
        };
    }
}

//! Which buckets are moved, and which can be.

ghost use Rattle.std.specs.Prelude.{◌≡◌, ◌&&◌, ℕ, nat_lt, Some};
ghost use Rattle.std.specs.List.{list_any};
ghost use Rattle.vs_machine.specs.Kinds.Rebalancing.{is_moving, is_haul_of, hauls_of, is_in_move, is_free, bucket_to_haul};
ghost use Rattle.vs_space.specs.Next.{IsNext};
ghost use Rattle.vs_machine.specs.State as machine;
ghost use Rattle.vs_machine.specs.Tables.{count_to, least_to, is_to};
ghost use Rattle.vs_state.specs.Moves.{first_down, first_in_move};
ghost use Rattle.vs_state.specs.Plain.{plain, entry_in, transfer_in};
ghost use Rattle.vs_state.specs.Sized.{IsSized};

use crate::state::State;
use crate::tables::SetTables;
use vs_base::{BucketId, OpNo, SetNo};
use vs_send::{By, Transfer};
use vs_space::Status;

/// Whether a transfer was begun by a round of the operator's command.
fn is_haul_of(transfer: &Transfer, operator: OpNo) -> bool
    ensures { result ≡ is_haul_of operator (Some transfer.now) }
{
    match transfer.by {
        By::Haul(owner) => owner == operator,
        By::Command(_) => false,
    }
}

impl SetTables {
    /// Whether a round of the operator's command is moving one of the first `buckets` buckets from the set.
    fn is_hauling(&self, operator: OpNo, buckets: u32) -> bool
        ensures { result ≡ nat_lt 0 (count_to (λ b. is_haul_of operator (transfer_in self.now b)) buckets) }
    {
        let entries = self.transfers.entries();
        any_haul(entries, operator, buckets)
    }

    /// Whether the set sends or receives the bucket.
    fn is_moving(&self, bucket: BucketId) -> bool
        ensures { result ≡ is_moving (entry_in self.now bucket) }
    {
        matches!(
            self.space.get(bucket),
            Some(Status::Sending(_) | Status::Receiving(_))
        )
    }
}

// Some transfer of the first buckets was begun by such a round.
fn any_haul(entries: &[(BucketId, Transfer)], operator: OpNo, buckets: u32) -> bool
    ensures { result ≡ list_any (λ e. is_to buckets e.0 && is_haul_of operator (Some e.1)) entries.now }
{
    entries.iter().any(|entry| entry.0.get() <= buckets && is_haul_of(&entry.1, operator))
}

// Some set is moving such a bucket.
fn any_hauling(sets: &[SetTables], operator: OpNo, buckets: u32) -> bool
    ensures { result ≡ list_any (λ t. nat_lt 0 (count_to (λ b. is_haul_of operator (transfer_in t b)) buckets)) sets.now }
{
    sets.iter()
        .any(|tables| tables.is_hauling(operator, buckets))
}

// Some set sends or receives the bucket.
fn any_moving(sets: &[SetTables], bucket: BucketId) -> bool
    ensures { result ≡ list_any (λ t. is_moving (entry_in t bucket)) sets.now }
{
    sets.iter().any(|tables| tables.is_moving(bucket))
}

impl State {
    /// Whether a transfer is live that a round of the operator's command began.
    pub fn is_hauling(&self, operator: OpNo) -> bool
        requires { IsSized self.now }
        ensures { result ≡ nat_lt 0 (hauls_of (plain self.now) operator) }
    {
        any_hauling(self.sets.as_slice(), operator, self.config.bucket_count)
    }

    /// Whether some set sends or receives the bucket.
    pub fn is_in_move(&self, bucket: BucketId) -> bool
        requires { IsSized self.now }
        ensures { result ≡ is_in_move (plain self.now) bucket }
    {
        any_moving(self.sets.as_slice(), bucket)
    }

    /// The lowest set that is down.
    pub fn first_down(&self) -> Option<SetNo>
        requires { IsSized self.now }
        ensures { result ≡ first_down (plain self.now) }
    {
        for index in 0..self.set_count() {
            let set = SetNo::new(index + 1)?;
            if !self.up(set) {
                return Some(set);
            }
        }
        None
    }

    /// The lowest bucket that some set sends or receives.
    pub fn first_in_move(&self) -> Option<BucketId>
        requires { IsSized self.now }
        ensures { result ≡ first_in_move (plain self.now) }
    {
        for index in 0..self.config.bucket_count {
            let bucket = BucketId::new(index + 1)?;
            if self.is_in_move(bucket) {
                return Some(bucket);
            }
        }
        None
    }

    /// Whether the bucket is active at the set and has no transfer from there.
    pub fn is_free(&self, set: SetNo, bucket: BucketId) -> bool
        ensures { result ≡ is_free (plain self.now) set bucket }
    {
        matches!(self.entry(set, bucket), Some(Status::Active))
            && self.transfer(set, bucket).is_none()
    }

    /// The bucket that a haul between two sets moves: the lowest that is free at the first. There is none where one of
    /// the sets is down.
    pub fn bucket_to_haul(&self, from: SetNo, to: SetNo) -> Option<BucketId>
        ensures { result ≡ bucket_to_haul (plain self.now) from to }
    {
        if self.up(from) && self.up(to) {
            self.first_free(from)
        } else {
            None
        }
    }

    // The lowest bucket that is free at the set.
    fn first_free(&self, set: SetNo) -> Option<BucketId>
        ensures { result ≡ least_to (is_free (plain self.now) set) (plain self.now).config.bucket_count }
    {
        let bucket = self.next_free(set)?;
        if self.has_bucket(bucket) {
            Some(bucket)
        } else {
            None
        }
    }

    // The lowest bucket that is active at the set and has no transfer from there.
    fn next_free(&self, set: SetNo) -> Option<BucketId>
        ensures { IsNext (is_free (plain self.now) set) 0 result }
    {
        let mut after = None;
        while let Some(bucket) = self.next_active(set, after) {
            if self.is_free(set, bucket) {
                return Some(bucket);
            }
            after = Some(bucket);
        }
        None
    }
}

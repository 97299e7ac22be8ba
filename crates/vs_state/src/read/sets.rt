//! What a set has of the buckets.

ghost use Rattle.std.specs.Prelude.{◌≡◌, ◌≤◌, ℕ, true, [], length, option_map, unwrap_or};
ghost use Rattle.std.specs.Option.{option_copied, option_map_or};
ghost use Rattle.vs_record.specs.Change.{change};
ghost use Rattle.vs_space.specs.Entries.{status_of};
ghost use Rattle.vs_space.specs.Next.{IsNext};
ghost use Rattle.vs_space.specs.Status.{is_active, is_open};
ghost use Rattle.vs_machine.specs.State as machine;
ghost use Rattle.vs_machine.specs.Kinds.Connections.{receiving_at};
ghost use Rattle.vs_machine.specs.Kinds.Rebalancing.{hauls_at, view_of};
ghost use Rattle.vs_state.specs.Agrees.{Agrees, agreed, counts_at, hauls_in};
ghost use Rattle.vs_state.specs.Plain.{plain, ask};
ghost use Rattle.vs_state.specs.Serving.{serves};
ghost use Rattle.vs_state.specs.Sized.{IsSized, OnlyItsBuckets};
ghost use Rattle.vs_state.specs.Statuses.{number_at};

use crate::state::State;
use vs_balance::SetView;
use vs_base::{BucketId, Mode, SetNo};
use vs_config::SetConfig;
use vs_record::Change;
use vs_refs::Counts;
use vs_rows::Rows;
use vs_send::{Phase, Transfer};
use vs_space::{Space, Status, StatusKind, Verdict, verdict};

impl State {
    /// What the configuration says of the set.
    pub fn set_config(&self, set: SetNo) -> Option<&SetConfig>
        ensures { option_copied result ≡ machine.set_config (plain self.now) set }
    {
        self.config.sets.get(usize::from(set.get()) - 1)
    }

    /// Whether the set is locked: it gets no further bucket, and gives none.
    pub fn is_locked(&self, set: SetNo) -> bool
        ensures { result ≡ machine.is_locked (plain self.now) set }
    {
        match self.set_config(set) {
            Some(config) => config.lock,
            None => false,
        }
    }

    /// The set's share of the buckets against that of the other sets.
    pub fn weight(&self, set: SetNo) -> u32
        ensures { result ≡ machine.weight_of (plain self.now) set }
    {
        match self.set_config(set) {
            Some(config) => config.weight,
            None => 0,
        }
    }

    /// Whether the set is up.
    pub fn up(&self, set: SetNo) -> bool
        ensures { result ≡ (plain self.now).up set }
    {
        match self.set(set) {
            Some(tables) => tables.is_up,
            None => true,
        }
    }

    /// The change that the set's journal may have, where a fault took it down.
    pub fn pending(&self, set: SetNo) -> Option<&Change>
        ensures { option_map change (option_copied result) ≡ (plain self.now).pending set }
    {
        self.set(set)?.pending.as_ref()
    }

    /// The number of the set's last fault, and 0 before the first.
    pub fn last_fault(&self, set: SetNo) -> u64
        ensures { result ≡ (plain self.now).last_fault set }
    {
        match self.set(set) {
            Some(tables) => tables.last_fault,
            None => 0,
        }
    }

    /// The statuses of the buckets at a set.
    pub fn space(&self, set: SetNo) -> &Space
        requires sized { IsSized self.now }
        requires known { machine.has_set (plain self.now) set ≡ true }
        ensures { (b : ℕ) → status_of result.now.entries b ≡ ((plain self.now).bucket b).entry set }
    {
        &self.sets[usize::from(set.get()) - 1].space
    }

    /// The status of a bucket at a set.
    pub fn entry(&self, set: SetNo, bucket: BucketId) -> Option<Status>
        ensures { result ≡ ((plain self.now).bucket bucket).entry set }
    {
        match self.set(set) {
            Some(tables) => tables.space.get(bucket),
            None => None,
        }
    }

    /// The first bucket after this one, or the first of all, that is active at a set.
    pub fn next_active(&self, set: SetNo, after: Option<BucketId>) -> Option<BucketId>
        ensures { IsNext (λ b. is_active (((plain self.now).bucket b).entry set)) (unwrap_or after 0) result }
    {
        self.set(set)?.space.next_active(after)
    }

    /// The first bucket after this one, or the first of all, that has a status at a set and is neither active nor pinned
    /// there.
    pub fn next_open(&self, set: SetNo, after: Option<BucketId>) -> Option<BucketId>
        ensures { IsNext (λ b. is_open (((plain self.now).bucket b).entry set)) (unwrap_or after 0) result }
    {
        self.set(set)?.space.next_open(after)
    }

    /// How many buckets have a status of this kind at a set.
    pub fn count(&self, set: SetNo, kind: StatusKind) -> u32
        requires sized { IsSized self.now }
        requires buckets { OnlyItsBuckets (plain self.now) }
        ensures number { result ≡ number_at (plain self.now) set kind }
        ensures few { result ≤ 30000 }
    {
        match self.set(set) {
            Some(tables) => tables.space.count(kind),
            None => 0,
        }
    }

    /// How many buckets a set receives.
    pub fn receiving(&self, set: SetNo) -> u32
        requires sized { IsSized self.now }
        requires buckets { OnlyItsBuckets (plain self.now) }
        ensures { result ≡ receiving_at (plain self.now) set }
    {
        self.count(set, StatusKind::Receiving)
    }

    /// Whether the set is up and grants reads of the bucket.
    pub fn serves(&self, set: SetNo, bucket: BucketId) -> bool
        ensures { result ≡ serves (plain self.now) set bucket }
    {
        // a read is granted whether the bucket is locked against writes or not
        self.up(set) && verdict(self.entry(set, bucket), false, Mode::Ro) == Verdict::Granted
    }

    /// The rows of a bucket at a set.
    pub fn rows(&self, set: SetNo, bucket: BucketId) -> Option<&Rows>
        ensures { option_map_or (λ rows. rows.items) (option_copied result) [] ≡ ((plain self.now).bucket bucket).rows set }
    {
        self.set(set)?.rows.get(bucket)
    }

    /// The place of the rows of a bucket that a set sent.
    pub fn kept(&self, set: SetNo, bucket: BucketId) -> u64
        ensures { result ≡ ((plain self.now).bucket bucket).kept set }
    {
        match self.set(set) {
            Some(tables) => tables.kept_place(bucket),
            None => 0,
        }
    }

    /// How many rows of a bucket a set has.
    pub fn row_count(&self, set: SetNo, bucket: BucketId) -> u64
        ensures { result ≡ length (((plain self.now).bucket bucket).rows set) }
    {
        match self.rows(set, bucket) {
            Some(rows) => rows.len() as u64,
            None => 0,
        }
    }

    /// The transfer of a bucket from a set.
    pub fn transfer(&self, set: SetNo, bucket: BucketId) -> Option<&Transfer>
        ensures { option_copied result ≡ ((plain self.now).bucket bucket).transfer set }
    {
        match self.set(set) {
            Some(tables) => tables.transfers.get(&bucket),
            None => None,
        }
    }

    /// Whether a transfer of the bucket from a set waits for the running writes, and no further one may begin.
    pub fn is_draining(&self, set: SetNo, bucket: BucketId) -> bool
        ensures { result ≡ machine.is_draining (((plain self.now).bucket bucket).transfer set) }
    {
        match self.transfer(set, bucket) {
            Some(transfer) => matches!(transfer.phase, Phase::Draining(_)),
            None => false,
        }
    }

    /// What a set asked another about a bucket: the connection's epoch and the message's number.
    pub fn ask(&self, set: SetNo, bucket: BucketId) -> Option<(u64, u64)>
        ensures { option_map ask result ≡ ((plain self.now).bucket bucket).ask set }
    {
        match self.set(set) {
            Some(tables) => tables.asks.get(bucket),
            None => None,
        }
    }

    /// The references of a bucket at a set.
    pub fn counts(&self, set: SetNo, bucket: BucketId) -> Counts
        ensures kept { result ≡ counts_at self.now set bucket }
        ensures agreed { Agrees self.now → result ≡ agreed (plain self.now) set bucket }
    {
        match self.set(set) {
            Some(tables) => tables.refs.counts(bucket),
            None => Counts::default(),
        }
    }

    /// How many transfers from the set were begun by a round of a `balance` command.
    pub fn hauls(&self, set: SetNo) -> u32
        ensures kept { result ≡ hauls_in self.now set }
        ensures agreed { Agrees self.now → result ≡ hauls_at (plain self.now) set }
    {
        match self.set(set) {
            Some(tables) => tables.hauls,
            None => 0,
        }
    }

    /// What the rebalancer sees of a set.
    pub fn view(&self, set: SetNo) -> SetView
        requires sized { IsSized self.now }
        requires buckets { OnlyItsBuckets (plain self.now) }
        ensures { result ≡ view_of (plain self.now) set }
    {
        let active = self.count(set, StatusKind::Active);
        let pinned = self.count(set, StatusKind::Pinned);
        SetView {
            count: active + pinned,
            pinned,
            weight: self.weight(set),
            locked: self.is_locked(set),
        }
    }
}

//! Whether a set can delete what it has of a bucket that it sent: by the rules of vs_collect, where the set is up.

ghost use Rattle.std.specs.Prelude.{◌≡◌};
ghost use Rattle.vs_machine.specs.Kinds.Collection as collection;
ghost use Rattle.vs_state.specs.Agrees.{Agrees};
ghost use Rattle.vs_state.specs.Guard.{verdict};
ghost use Rattle.vs_state.specs.Plain.{plain};

use super::needs;
use crate::state::State;
use vs_base::{BucketId, SetNo};
use vs_collect::{Unmet, condemn, forget};
use vs_event::Reason;
use vs_space::Status;

/// The reason of the same name.
fn reason_of(cause: Unmet) -> Reason
    ensures { result ≡ collection.reason_of cause }
{
    match cause {
        Unmet::Unfit(entry) => Reason::Unfit(entry),
        Unmet::Live => Reason::Live,
        Unmet::Referenced(reads) => Reason::Referenced(reads),
        Unmet::NoRows => Reason::NoRows,
        Unmet::Rows(rows) => Reason::Rows(rows),
    }
}

/// What the rules allow, or the reason why they don't.
fn allowed(answer: Result<(), Unmet>) -> Result<(), Reason>
    ensures { result ≡ collection.allowed answer }
{
    match answer {
        Ok(()) => Ok(()),
        Err(cause) => Err(reason_of(cause)),
    }
}

impl State {
    pub(crate) fn can_condemn(&self, set: SetNo, bucket: BucketId) -> Result<(), Reason>
        requires { Agrees self.now }
        ensures { result ≡ verdict (collection.condemn (plain self.now) set bucket) }
    {
        if !self.has_set(set) || !self.has_bucket(bucket) {
            return Err(Reason::Unknown);
        }
        if !self.up(set) {
            return Err(Reason::Down(set));
        }
        let entry = self.entry(set, bucket);
        let live = self.transfer(set, bucket).is_some();
        let reads = self.counts(set, bucket).ro;
        allowed(condemn(entry, live, reads))
    }

    pub(crate) fn can_wipe(&self, set: SetNo, bucket: BucketId) -> Result<(), Reason>
        ensures { result ≡ verdict (collection.wipe (plain self.now) set bucket) }
    {
        if !self.has_set(set) || !self.has_bucket(bucket) {
            return Err(Reason::Unknown);
        }
        if !self.up(set) {
            return Err(Reason::Down(set));
        }
        let entry = self.entry(set, bucket);
        if !matches!(entry, Some(Status::Garbage)) {
            return Err(Reason::Unfit(entry));
        }
        needs(self.row_count(set, bucket) > 0, Reason::NoRows)
    }

    pub(crate) fn can_forget(&self, set: SetNo, bucket: BucketId) -> Result<(), Reason>
        ensures { result ≡ verdict (collection.forget (plain self.now) set bucket) }
    {
        if !self.has_set(set) || !self.has_bucket(bucket) {
            return Err(Reason::Unknown);
        }
        if !self.up(set) {
            return Err(Reason::Down(set));
        }
        let entry = self.entry(set, bucket);
        let rows = match self.rows(set, bucket) {
            Some(rows) => rows.len(),
            None => 0,
        };
        allowed(forget(entry, rows))
    }
}

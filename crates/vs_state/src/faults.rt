//! Why a command is refused.

ghost use Rattle.std.specs.Prelude.{◌≡◌};
ghost use Rattle.vs_machine.specs.Kinds.Faults.{send_fault, pin_fault, unpin_fault, unless_active, unless_pinned};
ghost use Rattle.vs_state.specs.Plain.{plain};

use crate::state::State;
use vs_base::{BucketId, SetNo};
use vs_machine::CommandFault;
use vs_space::Status;

/// Why a bucket of this status can't be moved or pinned.
fn unless_active(entry: Option<Status>) -> Option<CommandFault>
    ensures { result ≡ unless_active entry }
{
    match entry {
        Some(Status::Active) => None,
        Some(Status::Pinned) => Some(CommandFault::Pinned),
        _ => Some(CommandFault::WrongStatus(entry)),
    }
}

/// Why a bucket of this status can't be unpinned.
fn unless_pinned(entry: Option<Status>) -> Option<CommandFault>
    ensures { result ≡ unless_pinned entry }
{
    match entry {
        Some(Status::Pinned) => None,
        _ => Some(CommandFault::WrongStatus(entry)),
    }
}

impl State {
    /// Why a bucket can't be moved from one set to another, as `vshard.storage.bucket_send` refuses it.
    pub fn send_fault(&self, bucket: BucketId, from: SetNo, to: SetNo) -> Option<CommandFault>
        ensures { result ≡ send_fault (plain self.now) bucket from to }
    {
        if from == to {
            return Some(CommandFault::MoveToSelf);
        }
        if !self.up(from) {
            return Some(CommandFault::Down(from));
        }
        if !self.up(to) {
            return Some(CommandFault::Down(to));
        }
        if let Some(fault) = unless_active(self.entry(from, bucket)) {
            return Some(fault);
        }
        if self.is_locked(from) {
            return Some(CommandFault::SetLocked(from));
        }
        if self.is_draining(from, bucket) {
            return Some(CommandFault::BucketIsLocked);
        }
        None
    }

    /// Why a bucket can't be pinned at a set, as `vshard.storage.bucket_pin` refuses it.
    pub fn pin_fault(&self, bucket: BucketId, set: SetNo) -> Option<CommandFault>
        ensures { result ≡ pin_fault (plain self.now) bucket set }
    {
        if !self.up(set) {
            return Some(CommandFault::Down(set));
        }
        if let Some(fault) = unless_active(self.entry(set, bucket)) {
            return Some(fault);
        }
        if self.is_draining(set, bucket) {
            return Some(CommandFault::BucketIsLocked);
        }
        None
    }

    /// Why a bucket can't be unpinned at a set, as `vshard.storage.bucket_unpin` refuses it.
    pub fn unpin_fault(&self, bucket: BucketId, set: SetNo) -> Option<CommandFault>
        ensures { result ≡ unpin_fault (plain self.now) bucket set }
    {
        if !self.up(set) {
            return Some(CommandFault::Down(set));
        }
        unless_pinned(self.entry(set, bucket))
    }
}

//! Whether what a set does to send a bucket away can happen.

ghost use Rattle.std.specs.Prelude.{◌≡◌};
ghost use Rattle.vs_machine.specs.Kinds.Sender.{start, not_yet, freeze, chunk, seal, last, abort, end_move};
ghost use Rattle.vs_state.specs.Agrees.{Agrees};
ghost use Rattle.vs_state.specs.Guard.{verdict};
ghost use Rattle.vs_state.specs.Plain.{plain};
ghost use Rattle.vs_state.specs.Sized.{IsSized};

use super::needs;
use crate::state::State;
use vs_base::{BucketId, OpNo, SetNo};
use vs_event::Reason;
use vs_script::Command;
use vs_send::{Phase, Transfer};

impl State {
    pub(crate) fn can_start(&self, operator: OpNo) -> Result<(), Reason>
        ensures { result ≡ verdict (start (plain self.now) operator) }
    {
        if !self.has_operator(operator) {
            return Err(Reason::Unknown);
        }
        match self.next_command(operator) {
            Some(Command::Send(_, _, _)) => needs(!self.is_sending(operator), Reason::Stage),
            _ => Err(Reason::NoCommand),
        }
    }

    pub(crate) fn can_wait(&self, set: SetNo, bucket: BucketId) -> Result<(), Reason>
        requires { Agrees self.now }
        ensures { result ≡ verdict (not_yet (plain self.now) set bucket) }
    {
        if !self.has_set(set) || !self.has_bucket(bucket) {
            return Err(Reason::Unknown);
        }
        let Some(transfer) = self.transfer(set, bucket) else {
            return Err(Reason::NoTransfer);
        };
        let Phase::Draining(turns) = transfer.phase else {
            return Err(Reason::Stage);
        };
        if self.counts(set, bucket).rw == 0 {
            return Err(Reason::Unreferenced);
        }
        if turns >= Transfer::MAX_TURNS {
            return Err(Reason::TurnsSpent);
        }
        Ok(())
    }

    pub(crate) fn can_freeze(&self, set: SetNo, bucket: BucketId) -> Result<(), Reason>
        requires { Agrees self.now }
        ensures { result ≡ verdict (freeze (plain self.now) set bucket) }
    {
        if !self.has_set(set) || !self.has_bucket(bucket) {
            return Err(Reason::Unknown);
        }
        let Some(transfer) = self.transfer(set, bucket) else {
            return Err(Reason::NoTransfer);
        };
        if !matches!(transfer.phase, Phase::Draining(_)) {
            return Err(Reason::Stage);
        }
        let writes = self.counts(set, bucket).rw;
        if writes > 0 {
            return Err(Reason::Referenced(writes));
        }
        Ok(())
    }

    pub(crate) fn can_chunk(&self, set: SetNo, bucket: BucketId) -> Result<(), Reason>
        ensures { result ≡ verdict (chunk (plain self.now) set bucket) }
    {
        if !self.has_set(set) || !self.has_bucket(bucket) {
            return Err(Reason::Unknown);
        }
        let Some(transfer) = self.transfer(set, bucket) else {
            return Err(Reason::NoTransfer);
        };
        if !matches!(transfer.phase, Phase::Ready(_)) {
            return Err(Reason::Stage);
        }
        if !self.up(transfer.dest) {
            return Err(Reason::Down(transfer.dest));
        }
        Ok(())
    }

    pub(crate) fn can_seal(&self, set: SetNo, bucket: BucketId) -> Result<(), Reason>
        ensures { result ≡ verdict (seal (plain self.now) set bucket) }
    {
        if !self.has_set(set) || !self.has_bucket(bucket) {
            return Err(Reason::Unknown);
        }
        let Some(transfer) = self.transfer(set, bucket) else {
            return Err(Reason::NoTransfer);
        };
        needs(matches!(transfer.phase, Phase::Copied), Reason::Stage)
    }

    pub(crate) fn can_send_last(&self, set: SetNo, bucket: BucketId) -> Result<(), Reason>
        ensures { result ≡ verdict (last (plain self.now) set bucket) }
    {
        if !self.has_set(set) || !self.has_bucket(bucket) {
            return Err(Reason::Unknown);
        }
        let Some(transfer) = self.transfer(set, bucket) else {
            return Err(Reason::NoTransfer);
        };
        if !matches!(transfer.phase, Phase::Sealed) {
            return Err(Reason::Stage);
        }
        needs(self.up(transfer.dest), Reason::Down(transfer.dest))
    }

    pub(crate) fn can_end_move(&self, set: SetNo, bucket: BucketId) -> Result<(), Reason>
        ensures { result ≡ verdict (end_move (plain self.now) set bucket) }
    {
        if !self.has_set(set) || !self.has_bucket(bucket) {
            return Err(Reason::Unknown);
        }
        let Some(transfer) = self.transfer(set, bucket) else {
            return Err(Reason::NoTransfer);
        };
        needs(matches!(transfer.phase, Phase::Done), Reason::Stage)
    }

    pub(crate) fn can_abort(&self, set: SetNo, bucket: BucketId) -> Result<(), Reason>
        requires sized { IsSized self.now }
        requires agrees { Agrees self.now }
        ensures { result ≡ verdict (abort (plain self.now) set bucket) }
    {
        if !self.has_set(set) || !self.has_bucket(bucket) {
            return Err(Reason::Unknown);
        }
        let Some(transfer) = self.transfer(set, bucket) else {
            return Err(Reason::NoTransfer);
        };
        let writes = self.counts(set, bucket).rw;
        let dest_up = self.up(transfer.dest);
        let epoch = self.epoch(set, transfer.dest);
        match transfer.abort_cause(writes, dest_up, epoch) {
            Some(_) => Ok(()),
            None => Err(Reason::Standing),
        }
    }
}

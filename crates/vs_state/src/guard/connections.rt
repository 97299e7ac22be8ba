//! Whether a message or a reply can be taken, a connection closed, and another set asked.

ghost use Rattle.std.specs.Prelude.{◌≡◌};
ghost use Rattle.vs_machine.specs.Kinds.Connections.{deliver, hear, close};
ghost use Rattle.vs_machine.specs.Kinds.Recovery.{ask};
ghost use Rattle.vs_state.specs.Guard.{verdict};
ghost use Rattle.vs_state.specs.Plain.{plain};
ghost use Rattle.vs_state.specs.Sized.{IsSized};

use super::needs;
use crate::asked::asked_set;
use crate::state::State;
use vs_base::{BucketId, OpNo, SetNo};
use vs_event::Reason;
use vs_script::Command;
use vs_space::Status;

impl State {
    pub(crate) fn can_deliver(&self, from: SetNo, to: SetNo) -> Result<(), Reason>
        requires { IsSized self.now }
        ensures { result ≡ verdict (deliver (plain self.now) from to) }
    {
        if !self.has_set(from) || !self.has_set(to) {
            return Err(Reason::Unknown);
        }
        needs(self.head_call(from, to).is_some(), Reason::Empty)
    }

    pub(crate) fn can_hear(&self, from: SetNo, to: SetNo) -> Result<(), Reason>
        requires { IsSized self.now }
        ensures { result ≡ verdict (hear (plain self.now) from to) }
    {
        if !self.has_set(from) || !self.has_set(to) {
            return Err(Reason::Unknown);
        }
        needs(self.head_reply(from, to).is_some(), Reason::Empty)
    }

    pub(crate) fn can_close(&self, operator: OpNo) -> Result<(), Reason>
        ensures { result ≡ verdict (close (plain self.now) operator) }
    {
        if !self.has_operator(operator) {
            return Err(Reason::Unknown);
        }
        match self.next_command(operator) {
            Some(Command::Close(_, _)) => Ok(()),
            _ => Err(Reason::NoCommand),
        }
    }

    pub(crate) fn can_ask(&self, set: SetNo, bucket: BucketId) -> Result<(), Reason>
        requires { IsSized self.now }
        ensures { result ≡ verdict (ask (plain self.now) set bucket) }
    {
        if !self.has_set(set) || !self.has_bucket(bucket) {
            return Err(Reason::Unknown);
        }
        if !self.up(set) {
            return Err(Reason::Down(set));
        }
        let entry = self.entry(set, bucket);
        let Some(other) = asked_set(&entry) else {
            return Err(Reason::Unfit(entry));
        };
        if matches!(entry, Some(Status::Sending(_))) && self.transfer(set, bucket).is_some() {
            return Err(Reason::Live);
        }
        if !self.up(other) {
            return Err(Reason::Down(other));
        }
        let epoch = self.epoch(set, other);
        match self.ask(set, bucket) {
            Some((asked, _)) if asked == epoch => Err(Reason::Live),
            _ => Ok(()),
        }
    }
}

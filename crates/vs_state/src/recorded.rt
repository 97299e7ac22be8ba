//! At which set an event records a change.

ghost use Rattle.std.specs.Prelude.{◌≡◌, option_map};
ghost use Rattle.vs_machine.specs.Kinds.Connections.{received_at, counts_at, decision_by};
ghost use Rattle.vs_machine.specs.Kinds.Stops.{recording_of};
ghost use Rattle.vs_machine.specs.State as machine;
ghost use Rattle.vs_state.specs.Plain.{plain};
ghost use Rattle.vs_state.specs.Sized.{IsSized, OnlyItsBuckets};
ghost use Rattle.vs_event.specs.declared.event.Recorded.TheVariants as recorded;

use crate::asked::asked_set;
use crate::state::State;
use vs_base::{BucketId, ClientNo, Mode, OpNo, SetNo};
use vs_event::Recorded;
use vs_link::Msg;
use vs_recover::{Decision, decide};
use vs_recv::{Took, receive};
use vs_script::Command;
use vs_space::{RecvFault, Reply, Status};

impl State {
    /// What a set does with a message of a transfer, as the receiver's table has it.
    pub fn receives(
        &self,
        from: SetNo,
        to: SetNo,
        bucket: BucketId,
        last: bool,
    ) -> Result<Took, RecvFault>
        requires sized { IsSized self.now }
        requires buckets { OnlyItsBuckets (plain self.now) }
        ensures { result ≡ received_at (plain self.now) from to bucket last }
    {
        receive(
            self.entry(to, bucket),
            self.is_locked(to),
            self.receiving(to),
            self.config.max_receiving,
            from,
            last,
        )
    }

    /// Whether the answer to the message of this number is the one that a set waits for, to know what becomes of a bucket.
    pub fn answer_counts(&self, set: SetNo, from: SetNo, bucket: BucketId, sync: u64) -> bool
        requires { IsSized self.now }
        ensures { result ≡ counts_at ((plain self.now).bucket bucket) ((plain self.now).link set from).epoch set from sync }
    {
        let asked = self.ask(set, bucket) == Some((self.epoch(set, from), sync));
        asked && asked_set(&self.entry(set, bucket)) == Some(from)
    }

    /// What becomes of a bucket at a set, where another set has this status of it.
    pub fn decision(
        &self,
        set: SetNo,
        bucket: BucketId,
        remote: Option<Status>,
        live: bool,
    ) -> Decision
        ensures { result ≡ decision_by (((plain self.now).bucket bucket).entry set) remote live }
    {
        match self.entry(set, bucket) {
            Some(local) => decide(local, remote, live),
            None => Decision::Stay,
        }
    }

    /// The set at which an event records a change, where it does.
    pub fn recorded_at(&self, event: Recorded) -> Option<SetNo>
        requires sized { IsSized self.now }
        requires buckets { OnlyItsBuckets (plain self.now) }
        ensures { result ≡ option_map (λ r. r.at) (recording_of (plain self.now) event) }
    {
        match event {
            Recorded::Act(client) => self.writes_at(client),
            Recorded::Freeze(set, bucket) | Recorded::Seal(set, bucket) => {
                self.transfer(set, bucket).map(|_| set)
            }
            Recorded::Deliver(from, to) => self.takes_at(from, to),
            Recorded::Hear(set, from) => self.decides_at(set, from),
            Recorded::Condemn(set, _) | Recorded::Wipe(set, _) | Recorded::Forget(set, _) => {
                Some(set)
            }
            Recorded::Pin(operator) => self.pins_at(operator),
        }
    }

    // A call that writes records at its set.
    fn writes_at(&self, client: ClientNo) -> Option<SetNo>
        ensures { result ≡ option_map (λ r. r.at) (recording_of (plain self.now) (recorded.Act client)) }
    {
        let tables = self.client(client)?;
        match tables.next_call()?.mode {
            Mode::Ro => None,
            Mode::Rw => tables.present.set(),
        }
    }

    // A message that is taken records at the receiver.
    fn takes_at(&self, from: SetNo, to: SetNo) -> Option<SetNo>
        requires sized { IsSized self.now }
        requires buckets { OnlyItsBuckets (plain self.now) }
        ensures { result ≡ option_map (λ r. r.at) (recording_of (plain self.now) (recorded.Deliver from to)) }
    {
        let (bucket, last) = match &self.head_call(from, to)?.msg {
            Msg::Chunk(bucket, _) => (*bucket, false),
            Msg::Last(bucket) => (*bucket, true),
            Msg::Stat(_) => return None,
        };
        match self.receives(from, to, bucket, last) {
            Ok(_) => Some(to),
            Err(_) => None,
        }
    }

    // An answer that decides records at the set that asked.
    fn decides_at(&self, set: SetNo, from: SetNo) -> Option<SetNo>
        requires { IsSized self.now }
        ensures { result ≡ option_map (λ r. r.at) (recording_of (plain self.now) (recorded.Hear set from)) }
    {
        let heard = self.head_reply(set, from)?;
        let Reply::State(remote, live) = heard.reply else {
            return None;
        };
        if !self.answer_counts(set, from, heard.bucket, heard.sync) {
            return None;
        }
        match self.decision(set, heard.bucket, remote, live) {
            Decision::Stay => None,
            Decision::ToActive | Decision::ToGarbage => Some(set),
        }
    }

    // A bucket that is pinned or unpinned is recorded where it stands.
    fn pins_at(&self, operator: OpNo) -> Option<SetNo>
        ensures { result ≡ option_map (λ r. r.at) (recording_of (plain self.now) (recorded.Pin operator)) }
    {
        let (set, fault) = match self.next_command(operator)? {
            Command::Pin(bucket, set) => (*set, self.pin_fault(*bucket, *set)),
            Command::Unpin(bucket, set) => (*set, self.unpin_fault(*bucket, *set)),
            _ => return None,
        };
        match fault {
            Some(_) => None,
            None => Some(set),
        }
    }
}

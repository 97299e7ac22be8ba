//! Events.

ghost use Rattle.std.specs.Prelude.{◌≡◌, ◌≢◌, MatchOption};

use std::mem::size_of;
use vs_base::{BucketId, ClientNo, OpNo, SetNo};

/// An event that records a change at a set, and that a fault of its disk may interrupt.
#[derive(Clone, Copy)]
pub enum Recorded {
    /// The client's call acts.
    Act(ClientNo),
    /// The bucket becomes sending at the set.
    Freeze(SetNo, BucketId),
    /// The bucket becomes sent at the set.
    Seal(SetNo, BucketId),
    /// The second set takes the first message from the first.
    Deliver(SetNo, SetNo),
    /// The first set takes the first reply of the second.
    Hear(SetNo, SetNo),
    /// The bucket becomes garbage at the set.
    Condemn(SetNo, BucketId),
    /// The set deletes rows of a garbage bucket.
    Wipe(SetNo, BucketId),
    /// The set deletes its entry of a garbage bucket.
    Forget(SetNo, BucketId),
    /// The operator's command pins or unpins its bucket.
    Pin(OpNo),
}

/// Who restarts a set.
#[derive(Clone, Copy)]
pub enum RestartBy {
    /// The next command of this operator.
    Line(OpNo),
    /// The service that brings sets up again.
    Service,
}

/// One atomic action of one actor of a cluster.
#[derive(Clone, Copy)]
pub enum Event {
    /// The client posts its next call to the set.
    Post(ClientNo, SetNo),
    /// The set grants or refuses the client's call.
    Begin(ClientNo),
    /// The client's call acts on the rows.
    Act(ClientNo),
    /// The client's call gives its reference back.
    End(ClientNo),
    /// The client takes its answer.
    Take(ClientNo),
    /// The operator's command cuts a call off.
    Cut(OpNo),
    /// The operator's command begins to send its bucket.
    Start(OpNo),
    /// The operator's round begins a transfer from the first set to the second.
    Haul(OpNo, SetNo, SetNo),
    /// The transfer waits one more turn for running writes.
    NotYet(SetNo, BucketId),
    /// The bucket becomes sending at the set.
    Freeze(SetNo, BucketId),
    /// The set posts the next rows of the bucket.
    Chunk(SetNo, BucketId),
    /// The bucket becomes sent at the set.
    Seal(SetNo, BucketId),
    /// The set posts the last message of the transfer.
    Last(SetNo, BucketId),
    /// The set gives the transfer up.
    Abort(SetNo, BucketId),
    /// The set ends the transfer.
    EndMove(SetNo, BucketId),
    /// The second set takes the first message from the first.
    Deliver(SetNo, SetNo),
    /// The first set takes the first reply of the second.
    Hear(SetNo, SetNo),
    /// The operator's command closes a connection.
    Close(OpNo),
    /// The set asks another for its status of the bucket.
    Ask(SetNo, BucketId),
    /// The bucket becomes garbage at the set.
    Condemn(SetNo, BucketId),
    /// The set deletes rows of a garbage bucket.
    Wipe(SetNo, BucketId),
    /// The set deletes its entry of a garbage bucket.
    Forget(SetNo, BucketId),
    /// The operator's command pins or unpins its bucket.
    Pin(OpNo),
    /// The operator's command plans a round.
    Plan(OpNo),
    /// The operator's command stops a set.
    Stop(OpNo),
    /// The set goes down, since its disk fails, by this fault number, while it records the event.
    Fault(SetNo, u64, Recorded),
    /// The set comes up, with its pending entry if true, and without it else.
    Restart(SetNo, bool, RestartBy),
}

// Long traces are kept whole, so an event is small.
const _: () = prove!(size_of::<Event>() <= 40);

impl Recorded {
    ghost use Rattle.vs_event.specs.Event.{event_words};
    ghost use Rattle.vs_event.specs.Recorded.{event_of, recorded_words};

    /// The same event, where nothing interrupts it.
    pub fn event(self) -> Event
        ensures value { result ≡ event_of self }

        // It has the same words.
        ensures words { event_words result ≡ recorded_words self }
    {
        match self {
            Recorded::Act(client) => Event::Act(client),
            Recorded::Freeze(set, bucket) => Event::Freeze(set, bucket),
            Recorded::Seal(set, bucket) => Event::Seal(set, bucket),
            Recorded::Deliver(from, to) => Event::Deliver(from, to),
            Recorded::Hear(from, to) => Event::Hear(from, to),
            Recorded::Condemn(set, bucket) => Event::Condemn(set, bucket),
            Recorded::Wipe(set, bucket) => Event::Wipe(set, bucket),
            Recorded::Forget(set, bucket) => Event::Forget(set, bucket),
            Recorded::Pin(operator) => Event::Pin(operator),
        }
    }
}

impl Event {
    ghost use Rattle.vs_event.specs.declared.event.Recorded.{Recorded};
    ghost use Rattle.vs_event.specs.Recorded.{event_of};

    /// The event as one that a fault may interrupt. None where it is of another kind.
    pub fn recorded(self) -> Option<Recorded>
        ensures { MatchOption result
            ((r : Recorded) → self ≢ event_of r) (λ r. self ≡ event_of r) }
    {
        match self {
            Event::Act(client) => Some(Recorded::Act(client)),
            Event::Freeze(set, bucket) => Some(Recorded::Freeze(set, bucket)),
            Event::Seal(set, bucket) => Some(Recorded::Seal(set, bucket)),
            Event::Deliver(from, to) => Some(Recorded::Deliver(from, to)),
            Event::Hear(from, to) => Some(Recorded::Hear(from, to)),
            Event::Condemn(set, bucket) => Some(Recorded::Condemn(set, bucket)),
            Event::Wipe(set, bucket) => Some(Recorded::Wipe(set, bucket)),
            Event::Forget(set, bucket) => Some(Recorded::Forget(set, bucket)),
            Event::Pin(operator) => Some(Recorded::Pin(operator)),
            _ => None,
        }
    }
}

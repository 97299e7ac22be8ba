//! Why an event can't happen.

mod calls;
mod collection;
mod connections;
mod pinning;
mod rebalancing;
mod sender;
mod stops;

ghost use Rattle.std.specs.Prelude.{◌≡◌};
ghost use Rattle.vs_machine.specs.Check.{needs};
ghost use Rattle.vs_machine.specs.Step.{step};
ghost use Rattle.vs_state.specs.Agrees.{Agrees};
ghost use Rattle.vs_state.specs.Guard.{verdict};
ghost use Rattle.vs_state.specs.Plain.{plain};
ghost use Rattle.vs_state.specs.Sized.{IsSized, OnlyItsBuckets};

use crate::state::State;
use vs_event::{Event, Reason};

/// The test holds, else the reason.
fn needs(holds: bool, reason: Reason) -> Result<(), Reason>
    ensures { result ≡ needs holds reason }
{
    if holds { Ok(()) } else { Err(reason) }
}

impl State {
    /// Why the event can't happen, if it can't: the first of its guards that fails.
    pub fn guard(&self, event: &Event) -> Result<(), Reason>
        requires sized { IsSized self.now }
        requires agrees { Agrees self.now }
        requires buckets { OnlyItsBuckets (plain self.now) }
        ensures { result ≡ verdict (step (plain self.now) event.now) }
    {
        match event {
            Event::Post(client, set) => self.can_post(*client, *set),
            Event::Begin(client) => self.can_begin(*client),
            Event::Act(client) => self.can_act(*client),
            Event::End(client) => self.can_end(*client),
            Event::Take(client) => self.can_take(*client),
            Event::Cut(operator) => self.can_cut(*operator),
            Event::Start(operator) => self.can_start(*operator),
            Event::Haul(operator, from, to) => self.can_haul(*operator, *from, *to),
            Event::NotYet(set, bucket) => self.can_wait(*set, *bucket),
            Event::Freeze(set, bucket) => self.can_freeze(*set, *bucket),
            Event::Chunk(set, bucket) => self.can_chunk(*set, *bucket),
            Event::Seal(set, bucket) => self.can_seal(*set, *bucket),
            Event::Last(set, bucket) => self.can_send_last(*set, *bucket),
            Event::Abort(set, bucket) => self.can_abort(*set, *bucket),
            Event::EndMove(set, bucket) => self.can_end_move(*set, *bucket),
            Event::Deliver(from, to) => self.can_deliver(*from, *to),
            Event::Hear(set, from) => self.can_hear(*set, *from),
            Event::Close(operator) => self.can_close(*operator),
            Event::Ask(set, bucket) => self.can_ask(*set, *bucket),
            Event::Condemn(set, bucket) => self.can_condemn(*set, *bucket),
            Event::Wipe(set, bucket) => self.can_wipe(*set, *bucket),
            Event::Forget(set, bucket) => self.can_forget(*set, *bucket),
            Event::Pin(operator) => self.can_pin(*operator),
            Event::Plan(operator) => self.can_plan(*operator),
            Event::Stop(operator) => self.can_stop(*operator),
            Event::Fault(set, number, recorded) => self.can_fail(*set, *number, recorded),
            Event::Restart(set, kept, by) => self.can_restart(*set, *kept, *by),
        }
    }
}

//! Whether a set can go down, or come up again.

ghost use Rattle.std.specs.Prelude.{◌≡◌};
ghost use Rattle.vs_event.specs.declared.event.RestartBy.TheVariants.{Line, Service};
ghost use Rattle.vs_machine.specs.Kinds.Stops.{stop, fault, restart, recorded_step, has_recorded, is_next_fault, may_keep};
ghost use Rattle.vs_state.specs.Agrees.{Agrees};
ghost use Rattle.vs_state.specs.Guard.{verdict};
ghost use Rattle.vs_state.specs.Plain.{plain};
ghost use Rattle.vs_state.specs.Sized.{IsSized, OnlyItsBuckets};

use super::needs;
use crate::state::State;
use vs_base::{OpNo, SetNo};
use vs_event::{Reason, Recorded, RestartBy};
use vs_script::Command;

/// Whether a fault may have this number after the set's last: the numbers rise, and the greatest may come again.
fn is_next_fault(last: u64, number: u64) -> bool
    ensures { result ≡ is_next_fault last number }
{
    last < number || (last == u64::MAX && number == u64::MAX)
}

impl State {
    pub(crate) fn can_stop(&self, operator: OpNo) -> Result<(), Reason>
        ensures { result ≡ verdict (stop (plain self.now) operator) }
    {
        if !self.has_operator(operator) {
            return Err(Reason::Unknown);
        }
        match self.next_command(operator) {
            Some(Command::Stop(_)) => Ok(()),
            _ => Err(Reason::NoCommand),
        }
    }

    pub(crate) fn can_fail(&self, set: SetNo, number: u64, event: &Recorded) -> Result<(), Reason>
        requires sized { IsSized self.now }
        requires agrees { Agrees self.now }
        requires buckets { OnlyItsBuckets (plain self.now) }
        ensures { result ≡ verdict (fault (plain self.now) set number event.now) }
    {
        if !self.has_set(set) || !self.has_recorded(event) {
            return Err(Reason::Unknown);
        }
        if !self.up(set) {
            return Err(Reason::Down(set));
        }
        let last = self.last_fault(set);
        if !is_next_fault(last, number) {
            return Err(Reason::FaultNumber(last));
        }
        self.can_record(event)?;
        needs(self.recorded_at(*event) == Some(set), Reason::NoRecord)
    }

    // Whether the cluster has what the event names.
    fn has_recorded(&self, event: &Recorded) -> bool
        ensures { result ≡ has_recorded (plain self.now) event.now }
    {
        match event {
            Recorded::Act(client) => self.has_client(*client),
            Recorded::Freeze(set, bucket)
            | Recorded::Seal(set, bucket)
            | Recorded::Condemn(set, bucket)
            | Recorded::Wipe(set, bucket)
            | Recorded::Forget(set, bucket) => self.has_set(*set) && self.has_bucket(*bucket),
            Recorded::Deliver(from, to) | Recorded::Hear(from, to) => {
                self.has_set(*from) && self.has_set(*to)
            }
            Recorded::Pin(operator) => self.has_operator(*operator),
        }
    }

    // Whether the event can happen by itself.
    fn can_record(&self, event: &Recorded) -> Result<(), Reason>
        requires sized { IsSized self.now }
        requires agrees { Agrees self.now }
        ensures { result ≡ verdict (recorded_step (plain self.now) event.now) }
    {
        match event {
            Recorded::Act(client) => self.can_act(*client),
            Recorded::Freeze(set, bucket) => self.can_freeze(*set, *bucket),
            Recorded::Seal(set, bucket) => self.can_seal(*set, *bucket),
            Recorded::Deliver(from, to) => self.can_deliver(*from, *to),
            Recorded::Hear(set, from) => self.can_hear(*set, *from),
            Recorded::Condemn(set, bucket) => self.can_condemn(*set, *bucket),
            Recorded::Wipe(set, bucket) => self.can_wipe(*set, *bucket),
            Recorded::Forget(set, bucket) => self.can_forget(*set, *bucket),
            Recorded::Pin(operator) => self.can_pin(*operator),
        }
    }

    pub(crate) fn can_restart(&self, set: SetNo, kept: bool, by: RestartBy) -> Result<(), Reason>
        ensures { result ≡ verdict (restart (plain self.now) set kept by) }
    {
        match by {
            RestartBy::Line(operator) => self.can_restart_by(set, kept, operator),
            RestartBy::Service => self.can_serve_again(set, kept),
        }
    }

    // By the next command of an operator.
    fn can_restart_by(&self, set: SetNo, kept: bool, operator: OpNo) -> Result<(), Reason>
        ensures { result ≡ verdict (restart (plain self.now) set kept (Line operator)) }
    {
        if !self.has_set(set) || !self.has_operator(operator) {
            return Err(Reason::Unknown);
        }
        match self.next_command(operator) {
            Some(Command::Restart(named)) if *named == set => {}
            _ => return Err(Reason::NoCommand),
        }
        needs(self.may_keep(set, kept), Reason::NoPending)
    }

    // By the service that brings sets up again.
    fn can_serve_again(&self, set: SetNo, kept: bool) -> Result<(), Reason>
        ensures { result ≡ verdict (restart (plain self.now) set kept Service) }
    {
        if !self.has_set(set) {
            return Err(Reason::Unknown);
        }
        if self.up(set) {
            return Err(Reason::Up(set));
        }
        if self.pending(set).is_none() && !self.is_finished() {
            return Err(Reason::NotFinished);
        }
        needs(self.may_keep(set, kept), Reason::NoPending)
    }

    // A change can be kept only where one is pending.
    fn may_keep(&self, set: SetNo, kept: bool) -> bool
        ensures { result ≡ may_keep (plain self.now) set kept }
    {
        !kept || (!self.up(set) && self.pending(set).is_some())
    }
}

//! Whether what a client does with its call can happen.

ghost use Rattle.std.specs.Prelude.{◌≡◌, ◌&&◌, is_some};
ghost use Rattle.vs_machine.specs.State as machine;
ghost use Rattle.vs_machine.specs.Kinds.Calls.{post, begin, act, «end», take, cut_call, call_to_cut, is_reached, is_answered};
ghost use Rattle.vs_state.specs.Guard.{verdict};
ghost use Rattle.vs_state.specs.Plain.{plain};

use super::needs;
use crate::state::State;
use vs_base::{ClientNo, OpNo, SetNo};
use vs_calls::Stage;
use vs_event::Reason;
use vs_script::Command;

/// The most tries of a call.
const MAX_TRIES: u8 = 128;

impl State {
    pub(crate) fn can_post(&self, client: ClientNo, set: SetNo) -> Result<(), Reason>
        ensures { result ≡ verdict (post (plain self.now) client set) }
    {
        if !self.has_client(client) || !self.has_set(set) {
            return Err(Reason::Unknown);
        }
        if self.next_call(client).is_none() {
            return Err(Reason::NoCommand);
        }
        match self.stage(client) {
            Stage::Idle | Stage::Refused => needs(
                self.tries(client) < MAX_TRIES,
                Reason::TriesSpent,
            ),
            _ => Err(Reason::Stage),
        }
    }

    pub(crate) fn can_begin(&self, client: ClientNo) -> Result<(), Reason>
        ensures { result ≡ verdict (begin (plain self.now) client) }
    {
        if !self.has_client(client) {
            return Err(Reason::Unknown);
        }
        match self.stage(client) {
            Stage::Posted => needs(self.is_at_a_set(client), Reason::Stage),
            _ => Err(Reason::Stage),
        }
    }

    pub(crate) fn can_act(&self, client: ClientNo) -> Result<(), Reason>
        ensures { result ≡ verdict (act (plain self.now) client) }
    {
        if !self.has_client(client) {
            return Err(Reason::Unknown);
        }
        match self.stage(client) {
            Stage::Running => needs(self.is_at_a_set(client), Reason::Stage),
            _ => Err(Reason::Stage),
        }
    }

    // Whether a call is there, and was posted to a set.
    fn is_at_a_set(&self, client: ClientNo) -> bool
        ensures { result ≡ (is_some (machine.next_call ((plain self.now).client client)) && is_some ((plain self.now).client client).present.set) }
    {
        self.next_call(client).is_some() && self.call_set(client).is_some()
    }

    pub(crate) fn can_end(&self, client: ClientNo) -> Result<(), Reason>
        ensures { result ≡ verdict («end» (plain self.now) client) }
    {
        if !self.has_client(client) {
            return Err(Reason::Unknown);
        }
        match self.stage(client) {
            Stage::Acted => Ok(()),
            _ => Err(Reason::Stage),
        }
    }

    pub(crate) fn can_take(&self, client: ClientNo) -> Result<(), Reason>
        ensures { result ≡ verdict (take (plain self.now) client) }
    {
        if !self.has_client(client) {
            return Err(Reason::Unknown);
        }
        match self.stage(client) {
            Stage::Refused if self.tries(client) < MAX_TRIES => Err(Reason::TriesLeft),
            Stage::Refused | Stage::Ended | Stage::Lost => Ok(()),
            _ => Err(Reason::Stage),
        }
    }

    pub(crate) fn can_cut(&self, operator: OpNo) -> Result<(), Reason>
        ensures { result ≡ verdict (cut_call (plain self.now) operator) }
    {
        if !self.has_operator(operator) {
            return Err(Reason::Unknown);
        }
        match self.next_command(operator) {
            Some(Command::Cut(client, number)) => {
                needs(self.is_reached(*client, *number), Reason::NotReached)
            }
            _ => Err(Reason::NoCommand),
        }
    }

    // The call of this number is answered, or is the client's present one and was posted.
    fn is_reached(&self, client: ClientNo, number: u32) -> bool
        ensures { result ≡ is_reached ((plain self.now).client client) number }
    {
        let Some(tables) = self.client(client) else {
            return number == 0;
        };
        let answered = tables.outcomes.len();
        let number = number as usize;
        if number <= answered {
            return true;
        }
        number - 1 == answered && !matches!(tables.present.stage(), Stage::Idle)
    }
}

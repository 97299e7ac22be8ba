//! The present call of a client, from its first post to its answer.

ghost use Rattle.std.specs.Prelude.{◌≡◌, ◌≤◌, ◌<◌, ◌+◌, ◌-◌, ◌^◌, ◌++◌, ◌∷◌, [], not, ◌||◌, nat_le, true, false, None, option_map};
ghost use Rattle.std.specs.Option.{option_copied};
ghost use Rattle.vs_rows.specs.Said.{said_all};
ghost use Rattle.vs_calls.specs.Outcomes.{outcome, outcomes};
ghost use Rattle.vs_calls.specs.Progress.{fresh, posted, begun, acted, ended, cut, lost, taken, outcome_of, may_post, is_posted, is_running, is_acted, is_refused, is_idle, is_over, is_at_set};
ghost use Rattle.vs_calls.specs.State.{means, place_in, answers_in};

use crate::outcome::{Outcome, Outcomes};
use crate::stage::Stage;
use vs_base::SetNo;
use vs_rows::Answers;
use vs_space::{Cause, Verdict};

/// The present call of one client. No call takes memory.
#[derive(Drop)]
pub struct CallState {
    number: u32,
    stage: Stage,
    tries: u8,
    cut: bool,
    set: Option<SetNo>,
    writes: u64,
    cause: Option<Cause>,
    said: Option<(u64, Answers)>,
}

impl CallState {
    /// Call 1, which wasn't posted yet.
    pub fn new() -> CallState
        ensures { means result ≡ fresh 1 }
    {
        CallState {
            number: 1,
            stage: Stage::Idle,
            tries: 0,
            cut: false,
            set: None,
            writes: 0,
            cause: None,
            said: None,
        }
    }

    /// It is posted to a set, while its bucket has so many writes.
    pub fn post(&mut self, set: SetNo, writes: u64)
        requires stage { may_post self.old.stage ≡ true }
        requires tries { self.old.tries < 128 }
        ensures { means self.new ≡ posted (means self.old) set writes }
    {
        self.stage = Stage::Posted;
        self.tries += 1;
        self.set = Some(set);
        self.writes = writes;
    }

    /// The set granted or refused it.
    pub fn begin(&mut self, verdict: Verdict)
        requires { is_posted self.old.stage ≡ true }
        ensures { means self.new ≡ begun (means self.old) verdict }
    {
        match verdict {
            Verdict::Granted => self.stage = Stage::Running,
            Verdict::Refused(cause) => {
                self.stage = Stage::Refused;
                self.cause = Some(cause);
            }
        }
    }

    /// Its operations ran, at this place of the bucket's history.
    pub fn act(&mut self, place: u64, answers: Answers)
        requires { is_running self.old.stage ≡ true }
        ensures { means self.new ≡ acted (means self.old) place (said_all answers.items) }
    {
        self.stage = Stage::Acted;
        self.said = Some((place, answers));
    }

    /// Its reference was given back. One that was cut while it ran is lost.
    pub fn end(&mut self)
        requires { is_acted self.old.stage ≡ true }
        ensures { means self.new ≡ ended (means self.old) }
    {
        if self.cut {
            self.stage = Stage::Lost;
            self.said = None;
        } else {
            self.stage = Stage::Ended;
        }
    }

    /// It is given up. One that runs is marked, since its reference is given back first.
    pub fn cut(&mut self)
        requires { is_idle self.old.stage ≡ false }
        ensures { means self.new ≡ cut (means self.old) }
    {
        match self.stage {
            Stage::Running | Stage::Acted => self.cut = true,
            _ => {
                self.stage = Stage::Lost;
                self.said = None;
            }
        }
    }

    /// Its set went down.
    pub fn lose(&mut self)
        requires { is_at_set self.old.stage ≡ true }
        ensures { means self.new ≡ lost (means self.old) }
    {
        self.stage = Stage::Lost;
        self.said = None;
    }

    /// Its client takes the answer, and the next call is the present one.
    pub fn take(&mut self, to: &mut Outcomes)
        requires tried { (not (is_refused self.old.stage) || nat_le 128 self.old.tries) ≡ true }
        requires ready { (is_refused self.old.stage || is_over self.old.stage) ≡ true }
        requires number { self.old.number < 2 ^ 32 - 1 }
        requires room { 1 ≤ to.old.room }
        ensures next { means self.new ≡ taken (means self.old) }
        ensures answered { outcomes to.new.items ≡ outcomes to.old.items ++ outcome_of (means self.old) ∷ [] }
        ensures room { to.old.room ≤ to.new.room + 1 }
    {
        let outcome = self.outcome();
        to.push(outcome);
        self.number += 1;
        self.stage = Stage::Idle;
        self.tries = 0;
        self.cut = false;
        self.set = None;
        self.writes = 0;
        self.cause = None;
    }

    // What it is answered, which it hands out.
    fn outcome(&mut self) -> Outcome
        ensures said { outcome result ≡ outcome_of (means self.old) }
        ensures rest { self.new ≡ record self.old { said = None } }
    {
        let said = self.said.take();
        match self.stage {
            Stage::Ended => match said {
                Some((place, answers)) => Outcome::Reply(place, answers),
                None => Outcome::Lost,
            },
            Stage::Refused => match self.cause {
                Some(cause) => Outcome::Spent(cause),
                None => Outcome::Lost,
            },
            _ => Outcome::Lost,
        }
    }

    /// Its number, from 1.
    pub fn number(&self) -> u32
        ensures { result ≡ (means self.now).number }
    {
        self.number
    }

    /// How far it has come.
    pub fn stage(&self) -> Stage
        ensures { result ≡ (means self.now).stage }
    {
        self.stage
    }

    /// How often it was posted.
    pub fn tries(&self) -> u8
        ensures { result ≡ (means self.now).tries }
    {
        self.tries
    }

    /// Whether it was cut while it ran.
    pub fn was_cut(&self) -> bool
        ensures { result ≡ (means self.now).cut }
    {
        self.cut
    }

    /// The set of its last post.
    pub fn set(&self) -> Option<SetNo>
        ensures { result ≡ (means self.now).set }
    {
        self.set
    }

    /// The number of its bucket's writes at its last post, 0 before the first.
    pub fn writes(&self) -> u64
        ensures { result ≡ (means self.now).writes }
    {
        self.writes
    }

    /// Why it was last refused.
    pub fn cause(&self) -> Option<Cause>
        ensures { result ≡ (means self.now).cause }
    {
        self.cause
    }

    /// The place of its answers, where it acted and they aren't lost.
    pub fn place(&self) -> Option<u64>
        ensures { result ≡ place_in (means self.now) }
    {
        match self.stage {
            Stage::Acted | Stage::Ended => match &self.said {
                Some((place, _)) => Some(*place),
                None => None,
            },
            _ => None,
        }
    }

    /// Its answers, where it acted and they aren't lost.
    pub fn answers(&self) -> Option<&Answers>
        ensures { option_map (λ a. said_all a.items) (option_copied result) ≡ answers_in (means self.now) }
    {
        match self.stage {
            Stage::Acted | Stage::Ended => match &self.said {
                Some((_, answers)) => Some(answers),
                None => None,
            },
            _ => None,
        }
    }
}

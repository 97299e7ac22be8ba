//! Whether a round can be planned, and a bucket of it moved.

ghost use Rattle.std.specs.Prelude.{◌≡◌, ◌&&◌, ◌==◌, nat_lt};
ghost use Rattle.std.specs.List.{list_any};
ghost use Rattle.vs_machine.specs.Kinds.Rebalancing.{haul, plan, left_on, is_route, is_spent, is_balance, hauls_of, hauls_at};
ghost use Rattle.vs_machine.specs.State as machine;
ghost use Rattle.vs_state.specs.Agrees.{Agrees};
ghost use Rattle.vs_state.specs.Guard.{verdict};
ghost use Rattle.vs_state.specs.Plain.{plain};
ghost use Rattle.vs_state.specs.Sized.{IsSized};

use super::needs;
use crate::state::State;
use vs_balance::Route;
use vs_base::{OpNo, SetNo};
use vs_event::Reason;
use vs_script::Command;

/// Whether a bucket is left on the route between two sets.
#[tactic(auto, using(crate::proofs::Routes::some_left))]
fn is_left(routes: &[Route], from: SetNo, to: SetNo) -> bool
    ensures { result ≡ nat_lt 0 (left_on routes.now from to) }
{
    any_left(routes, from, to)
}

// Some route leads there with a number above 0.
fn any_left(routes: &[Route], from: SetNo, to: SetNo) -> bool
    ensures { result ≡ list_any (λ r. is_route from to r && nat_lt 0 r.number) routes.now }
{
    routes.iter().any(|route| route.giver == from && route.taker == to && route.number > 0)
}

/// Whether nothing is left on any route.
fn is_spent(routes: &[Route]) -> bool
    ensures { result ≡ is_spent routes.now }
{
    routes.iter().all(|route| route.number == 0)
}

impl State {
    pub(crate) fn can_haul(&self, operator: OpNo, from: SetNo, to: SetNo) -> Result<(), Reason>
        requires { Agrees self.now }
        ensures { result ≡ verdict (haul (plain self.now) operator from to) }
    {
        if !self.has_operator(operator) || !self.has_set(from) || !self.has_set(to) {
            return Err(Reason::Unknown);
        }
        if !self.has_left(operator, from, to) {
            return Err(Reason::NoRoute);
        }
        needs(self.may_haul(from), Reason::Live)
    }

    // Whether the operator's round has a bucket left to move between two sets.
    fn has_left(&self, operator: OpNo, from: SetNo, to: SetNo) -> bool
        ensures { result ≡ nat_lt 0 (left_on ((plain self.now).operator operator).routes from to) }
    {
        match self.operator(operator) {
            Some(tables) => is_left(tables.routes.as_slice(), from, to),
            None => false,
        }
    }

    // Whether a set may have one more haul.
    fn may_haul(&self, from: SetNo) -> bool
        requires { Agrees self.now }
        ensures { result ≡ nat_lt (hauls_at (plain self.now) from) (plain self.now).config.max_sending }
    {
        self.hauls(from) < self.config.max_sending
    }

    pub(crate) fn can_plan(&self, operator: OpNo) -> Result<(), Reason>
        requires { IsSized self.now }
        ensures { result ≡ verdict (plan (plain self.now) operator) }
    {
        if !self.has_operator(operator) {
            return Err(Reason::Unknown);
        }
        if !self.is_balancing(operator) {
            return Err(Reason::NoCommand);
        }
        if !self.is_round_over(operator) {
            return Err(Reason::Stage);
        }
        // With a set down the command is refused; with a bucket in a move it waits.
        if self.first_down().is_some() {
            return Ok(());
        }
        match self.first_in_move() {
            Some(bucket) => Err(Reason::Moving(bucket)),
            None => Ok(()),
        }
    }

    // Whether the operator's next command is `balance`.
    fn is_balancing(&self, operator: OpNo) -> bool
        ensures { result ≡ is_balance (machine.next_command ((plain self.now).operator operator)) }
    {
        matches!(self.next_command(operator), Some(Command::Balance))
    }

    // Whether nothing is left of the operator's round, and no transfer of it is live.
    fn is_round_over(&self, operator: OpNo) -> bool
        requires { IsSized self.now }
        ensures { result ≡ (is_spent ((plain self.now).operator operator).routes && (hauls_of (plain self.now) operator == 0)) }
    {
        self.is_round_spent(operator) && !self.is_hauling(operator)
    }

    fn is_round_spent(&self, operator: OpNo) -> bool
        ensures { result ≡ is_spent ((plain self.now).operator operator).routes }
    {
        match self.operator(operator) {
            Some(tables) => is_spent(tables.routes.as_slice()),
            None => true,
        }
    }
}

//! An operator begins a round.

ghost use Rattle.std.specs.Prelude.{◌≡◌, ◌≤◌, length, not, Ok, IfOk};
ghost use Rattle.vs_balance.specs.Disbalance.{is_disbalanced};
ghost use Rattle.vs_balance.specs.Ideal.{ideal_of};
ghost use Rattle.vs_balance.specs.Routes.{routes_of};
ghost use Rattle.vs_machine.specs.Kinds.Rebalancing as rebalancing;
ghost use Rattle.vs_state.specs.Guard.{verdict};
ghost use Rattle.vs_state.specs.Plain.{plain, operator};
ghost use Rattle.vs_state.specs.Sized.{IsSized, OnlyItsBuckets};
ghost use Rattle.vs_core.specs.Keeps.{IsKnown, IsSound};
ghost use Rattle.vs_core.specs.Planning.{after, IsPlanned, IsPlanReady};

use crate::answers::{answer, reserve_answer};
use crate::commands::begin_round;
use std::alloc::Global;
use vs_balance::{Routes, SetView, disbalanced, ideal, routes};
use vs_base::{NoMemory, OpNo, SetNo};
use vs_machine::{CommandFault, CommandOutcome};
use vs_state::{OperatorTables, State};

/// What a plan comes to.
#[derive(Drop)]
pub enum PreparedPlan {
    /// The command is answered, and no further round begins.
    Answer(CommandOutcome),
    /// A further round begins with these routes.
    Round(Routes),
}

/// How far the sets are from their ideal counts.
#[derive(Drop)]
struct Balance {
    is_near: bool,
    /// The routes by which they come to these.
    routes: Routes,
}

/// What the rebalancer sees of each set.
fn views(alloc: Global, state: &State) -> Result<Vec<SetView>, NoMemory>
    requires sized { IsSized state.now }
    requires buckets { OnlyItsBuckets (plain state.now) }
    ensures { IfOk result (λ views. views.items ≡ rebalancing.views_of (plain state.now)) }
{
    let count = state.set_count();
    let mut views = Vec::with_capacity(alloc, usize::from(count))?;
    for index in 0..count {
        let Some(set) = SetNo::new(index + 1) else {
            unreachable!()
        };
        views.push(state.view(set))?;
    }
    Ok(views)
}

/// Compares the counts with the ideals.
fn weigh(state: &State) -> Result<Balance, NoMemory>
    requires sets { length state.now.config.sets.items ≤ 32 }
    requires sized { IsSized state.now }
    requires buckets { OnlyItsBuckets (plain state.now) }
    ensures near { IfOk result (λ balance. let views = rebalancing.views_of (plain state.now) in
        balance.is_near ≡ not (is_disbalanced views (ideal_of views) state.now.config.threshold)) }
    ensures routes { IfOk result (λ balance. let views = rebalancing.views_of (plain state.now) in
        balance.routes.items ≡ routes_of views (ideal_of views) state.now.config.max_receiving) }
{
    let alloc = *state.sets.allocator();
    let views = views(alloc, state)?;
    let ideals = ideal(alloc, &views)?;
    let is_near = !disbalanced(&views, &ideals, state.config.threshold);
    let routes = routes(alloc, &views, &ideals, state.config.max_receiving)?;
    Ok(Balance { is_near, routes })
}

/// What comes next, by the rounds that were.
fn next_step(tables: &OperatorTables, balance: Balance) -> PreparedPlan
    ensures { after (operator tables.now) result
        ≡ rebalancing.planned (operator tables.now) balance.is_near balance.routes.items }
{
    let Balance { is_near, routes } = balance;
    if is_near {
        return PreparedPlan::Answer(CommandOutcome::Balanced(tables.rounds));
    }
    let was_in_vain = tables.rounds > 0 && tables.moved == 0;
    if was_in_vain || routes.is_empty() {
        return PreparedPlan::Answer(CommandOutcome::Stuck(tables.rounds));
    }
    PreparedPlan::Round(routes)
}

/// What the operator's plan comes to.
fn prepare(state: &State, operator: OpNo) -> Result<PreparedPlan, NoMemory>
    requires possible { verdict (rebalancing.plan (plain state.now) operator) ≡ Ok tt }
    requires known { IsKnown (plain state.now) }
    requires sized { IsSized state.now }
    ensures { IfOk result (λ prepared. IsPlanned state.now operator prepared) }
{
    if let Some(set) = state.first_down() {
        return Ok(PreparedPlan::Answer(CommandOutcome::Refused(CommandFault::Down(set))));
    }
    let Some(tables) = state.operator(operator) else {
        unreachable!()
    };
    let balance = weigh(state)?;
    Ok(next_step(tables, balance))
}

/// Makes ready what the plan comes to, and makes room for an answer.
pub(crate) fn reserve_plan(state: &mut State, operator: OpNo) -> Result<PreparedPlan, NoMemory>
    requires possible { verdict (rebalancing.plan (plain state.old) operator) ≡ Ok tt }
    requires known { IsKnown (plain state.old) }
    requires sound { IsSound state.old }
    ensures ready { IfOk result (λ prepared. IsPlanReady state.new operator prepared) }
    ensures same { plain state.new ≡ plain state.old }
    ensures sound { IsSound state.new }
{
    let prepared = prepare(state, operator)?;
    reserve_answer(state, operator)?;
    Ok(prepared)
}

/// A further round begins, or the command is answered.
pub(crate) fn plan(state: &mut State, operator: OpNo, prepared: PreparedPlan)
    requires possible { verdict (rebalancing.plan (plain state.old) operator) ≡ Ok tt }
    requires known { IsKnown (plain state.old) }
    requires sound { IsSound state.old }
    requires ready { IsPlanReady state.old operator prepared }
    ensures step { rebalancing.plan (plain state.old) operator ≡ Ok (plain state.new) }
    ensures sound { IsSound state.new }
{
    match prepared {
        PreparedPlan::Answer(outcome) => answer(state, operator, outcome),
        PreparedPlan::Round(routes) => begin_round(state, operator, routes),
    }
}

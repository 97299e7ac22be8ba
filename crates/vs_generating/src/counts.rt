//! What the summary counts.

ghost use Rattle.std.specs.Prelude.{◌≡◌, ◌≤◌, ◌*◌, ℕ, length};
ghost use Rattle.std.specs.List.{count_by};
ghost use Rattle.vs_generating.specs.Summary.{answered, is_end_move, rounds, rounds_of};
ghost use Rattle.vs_machine.specs.Inputs.{HasFew};
ghost use Rattle.vs_machine.specs.Laws.{IsWithinScripts};
ghost use Rattle.vs_state.specs.Plain.{plain};

use vs_event::Event;
use vs_machine::CommandOutcome;
use vs_state::State;

/// Whether a transfer is ended.
fn is_end_move(event: &Event) -> bool
    ensures { result ≡ is_end_move event.now }
{
    matches!(event, Event::EndMove(..))
}

/// How many transfers were ended.
pub(crate) fn moves(events: &[Event]) -> usize
    ensures { result ≡ count_by is_end_move events.now }
{
    events.iter().filter(|event| is_end_move(event)).count()
}

/// After how many rounds a balancing was answered.
fn rounds_of(outcome: &CommandOutcome) -> u32
    ensures { result ≡ rounds_of outcome.now }
{
    match outcome {
        CommandOutcome::Balanced(rounds) | CommandOutcome::Stuck(rounds) => *rounds,
        _ => 0,
    }
}

/// After how many rounds the first command of the first operator was answered.
pub(crate) fn rounds(state: &State) -> u32
    ensures { result ≡ rounds (plain state.now) }
{
    match state.operators.first() {
        Some(operator) => match operator.outcomes.get(0) {
            Some(outcome) => rounds_of(outcome),
            None => 0,
        },
        None => 0,
    }
}

/// How many calls are answered.
pub(crate) fn answered(state: &State) -> u64
    requires few { HasFew (plain state.now) }
    requires within { IsWithinScripts (plain state.now) }
    ensures { result ≡ answered (plain state.now) }
{
    let mut answered = 0;
    for client in &state.clients {
        answered += client.outcomes.len() as u64;
    }
    answered
}

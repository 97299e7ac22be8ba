//! The machine of a cluster: its state, what each event does, and what holds of every run.
#![tactic(auto)]

mod laws;
mod outcome;
mod runs;

pub use laws::{
    answered_calls, caused_answers, due_answers, every_event, five_events, given_inputs,
    held_buckets, legal_histories, one_owner, ordered_calls, recorded_changes, sealed_rows,
    steered_posts, true_answers,
};
pub use outcome::{CommandFault, CommandOutcome};
pub use runs::{
    commanded_runs, moved_runs, posted_runs, recovered_runs, stopped_runs, waited_runs,
};

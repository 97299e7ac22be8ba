//! What holds of every run, in one.

ghost use Rattle.vs_core.specs.Safety.{SafeEvents, SafeRuns, SafeStates};

use vs_machine::{
    caused_answers, every_event, five_events, held_buckets, legal_histories, one_owner,
    ordered_calls, sealed_rows, true_answers,
};

/// Each state that a run from a coherent opening reaches is safe, and each event of it: the laws of the machine together.
pub fn safe_runs()
    ensures states { SafeStates }
    ensures events { SafeEvents }
    ensures runs { SafeRuns }
{
    every_event();
    one_owner();
    legal_histories();
    ordered_calls();
    held_buckets();
    sealed_rows();
    true_answers();
    five_events();
    caused_answers();
}

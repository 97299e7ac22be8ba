//! What to look after.

ghost use Rattle.std.specs.Prelude.{◌≡◌, ◌++◌, [], ◌∷◌, map, string_bytes, OnOk, IfOk};
ghost use Rattle.serde_json.specs.Data.{string};
ghost use Rattle.serde_json.specs.View.{view};
ghost use Rattle.vs_info.specs.Json.{alert, set_alerts, disbalance, alerts};

use crate::summary::SetSummary;
use serde_json::Value;
use std::alloc::Global;
use vs_base::NoMemory;

/// Adds a text.
fn put_text(alerts: &mut Vec<Value>, text: String) -> Result<(), NoMemory>
    ensures { OnOk result (map view alerts.new.items ≡ map view alerts.old.items ++ string (string_bytes text) ∷ []) }
{
    alerts.push(Value::String(text))?;
    Ok(())
}

/// Adds that a set has buckets to look after, where it has any.
fn put_alert(alerts: &mut Vec<Value>, kind: &str, set: u64, count: u64) -> Result<(), NoMemory>
    ensures { OnOk result (map view alerts.new.items ≡ map view alerts.old.items ++ alert kind.now set count) }
{
    if count == 0 {
        return Ok(());
    }
    let text = format!(in *alerts.allocator(); "set {set} {kind} {count}")?;
    put_text(alerts, text)
}

/// Adds what is to be looked after at the set of this number.
fn put_set_alerts(alerts: &mut Vec<Value>, number: u64, set: &SetSummary) -> Result<(), NoMemory>
    ensures { OnOk result (map view alerts.new.items ≡ map view alerts.old.items ++ set_alerts number set.now) }
{
    let moving = u64::from(set.sending) + u64::from(set.receiving);
    put_alert(alerts, "moving", number, moving)?;
    let garbage = u64::from(set.sent) + u64::from(set.garbage);
    put_alert(alerts, "garbage", number, garbage)
}

/// Adds that the sets are far from their ideal counts, where they are.
fn put_disbalance(alerts: &mut Vec<Value>, is_unbalanced: bool) -> Result<(), NoMemory>
    ensures { OnOk result (map view alerts.new.items ≡ map view alerts.old.items ++ disbalance is_unbalanced) }
{
    if !is_unbalanced {
        return Ok(());
    }
    let text = String::from_str(*alerts.allocator(), "disbalanced")?;
    put_text(alerts, text)
}

/// What is to be looked after: at each set, and last that the sets are far from their ideal counts.
pub(crate) fn alert_values(
    alloc: Global,
    sets: &[SetSummary],
    is_unbalanced: bool,
) -> Result<Vec<Value>, NoMemory>
    ensures { IfOk result (λ values. map view values.items ≡ alerts sets.now is_unbalanced) }
{
    let mut values = Vec::new(alloc);
    for (i, set) in sets.iter().enumerate() {
        put_set_alerts(&mut values, i as u64 + 1, set)?;
    }
    put_disbalance(&mut values, is_unbalanced)?;
    Ok(values)
}

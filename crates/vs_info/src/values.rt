//! What is told, as JSON values.

ghost use Rattle.std.specs.Prelude.{◌≡◌, map, IfOk};
ghost use Rattle.serde_json.specs.View.{view};
ghost use Rattle.vs_info.specs.Json.{set_json, cluster_json};

use crate::alerts::alert_values;
use crate::summary::SetSummary;
use serde_json::{Value, json};
use std::alloc::Global;
use uuid::Uuid;
use vs_base::NoMemory;

/// A set.
#[tactic(auto, unfolding(crate::specs::Json::set_json))]
fn set_value(alloc: Global, set: &SetSummary) -> Result<Value, NoMemory>
    ensures { IfOk result (λ value. view value ≡ set_json set.now) }
{
    let mut buffer = Uuid::encode_buffer();
    let uuid = set.uuid.hyphenated().encode_lower(&mut buffer);
    Ok(json!(in alloc; {
        "active": set.active,
        "garbage": set.garbage,
        "pinned": set.pinned,
        "receiving": set.receiving,
        "sending": set.sending,
        "sent": set.sent,
        "uuid": uuid
    })?)
}

fn set_values(alloc: Global, sets: &[SetSummary]) -> Result<Vec<Value>, NoMemory>
    ensures { IfOk result (λ values. map view values.items ≡ map set_json sets.now) }
{
    let mut values = Vec::with_capacity(alloc, sets.len())?;
    for set in sets {
        values.push(set_value(alloc, set)?)?;
    }
    Ok(values)
}

/// A cluster of so many buckets.
#[tactic(auto, unfolding(crate::specs::Json::cluster_json))]
pub(crate) fn cluster_value(
    alloc: Global,
    bucket_count: u32,
    sets: &[SetSummary],
    is_unbalanced: bool,
) -> Result<Value, NoMemory>
    ensures { IfOk result (λ value. view value ≡ cluster_json bucket_count sets.now is_unbalanced) }
{
    let alerts = alert_values(alloc, sets, is_unbalanced)?;
    let sets = set_values(alloc, sets)?;
    Ok(json!(in alloc; {
        "alerts": alerts,
        "bucket_count": bucket_count,
        "sets": sets
    })?)
}

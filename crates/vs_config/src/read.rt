//! The reading of a configuration.

ghost use Rattle.std.specs.Prelude.{◌≡◌, ◌≢◌, ◌≤◌, ◌==◌, [], Ok, Err, IfOk, IfErr, length};
ghost use Rattle.std.specs.List.{list_any, list_all};
ghost use Rattle.std.specs.Str.{bytes_eq};
ghost use Rattle.toml.specs.Data.{Members, no_members};
ghost use Rattle.toml.specs.Errors.{IsBlank};
ghost use Rattle.toml.specs.View.{table_view};
ghost use Rattle.vs_config.specs.Configuration.{configuration};
ghost use Rattle.vs_config.specs.Lawful.{IsLawful};
ghost use Rattle.vs_config.specs.Reading.{bad, first_double, configuration_of, IsDocument, reading_of};

use crate::config::{Config, SetConfig};
use crate::fault::{ConfigFault, ConfigKind};
use crate::key::ConfigKey;
use crate::{sets, table};
use std::alloc::Global;
use toml::Table;
use uuid::Uuid;

// The keys at the top of a document.
const TOP_KEYS: [ConfigKey; 5] = [
    ConfigKey::BucketCount,
    ConfigKey::RebalancerDisbalanceThreshold,
    ConfigKey::RebalancerMaxReceiving,
    ConfigKey::RebalancerMaxSending,
    ConfigKey::Set,
];

// Some set has the uuid.
fn has_uuid(sets: &[SetConfig], uuid: &Uuid) -> bool
    ensures { result ≡ list_any (λ set. bytes_eq set.uuid uuid.now) sets.now }
{
    sets.iter().any(|set| set.uuid == *uuid)
}

// The number of the first set that has the uuid of a set before it.
fn double_in(sets: &[SetConfig]) -> Option<u8>
    requires { length sets.now ≤ 32 }
    ensures { result ≡ first_double [] sets.now }
{
    for (i, set) in sets.iter().enumerate() {
        if has_uuid(&sets[..i], &set.uuid) {
            return Some(i as u8 + 1);
        }
    }
    None
}

// Each set has the weight 0.
fn is_weightless(sets: &[SetConfig]) -> bool
    ensures { result ≡ list_all (λ set. set.weight == 0) sets.now }
{
    sets.iter().all(|set| set.weight == 0)
}

// The configuration that a document gives.
fn config_in(alloc: Global, document: &Table) -> Result<Config, ConfigFault>
    ensures ok { IfOk result (λ c.
        configuration_of (table_view document.now) ≡ Ok (configuration c)) }
    ensures fault { IfErr result (λ e. e ≢ ConfigFault.NoMemory
        → configuration_of (table_view document.now) ≡ Err e) }
    ensures memory { result ≡ Err ConfigFault.NoMemory → table_view document.now ≢ no_members }
{
    if table::has_other(document, &TOP_KEYS) {
        return Err(ConfigKind::UnknownKey.at(0, ConfigKey::Other));
    }
    let bucket_count = table::number(document, 0, ConfigKey::BucketCount, 1, 30_000, 3000)?;
    let threshold = table::number(
        document,
        0,
        ConfigKey::RebalancerDisbalanceThreshold,
        0,
        100,
        1,
    )?;
    let max_receiving = table::number(
        document,
        0,
        ConfigKey::RebalancerMaxReceiving,
        1,
        30_000,
        100,
    )?;
    let max_sending = table::number(document, 0, ConfigKey::RebalancerMaxSending, 1, 15, 1)?;
    let sets = sets::read(alloc, document)?;
    if let Some(set) = double_in(sets.as_slice()) {
        return Err(ConfigKind::DoubleUuid.at(set, ConfigKey::Uuid));
    }
    if is_weightless(sets.as_slice()) {
        return Err(ConfigKind::NoWeight.at(0, ConfigKey::Other));
    }
    Ok(Config {
        bucket_count,
        threshold,
        max_receiving,
        max_sending,
        sets,
    })
}

/// Reads a configuration from a TOML document in UTF-8.
///
/// The keys at the top are `bucket_count`, 3000 where it isn't given,
/// `rebalancer_disbalance_threshold`, else 1, `rebalancer_max_receiving`, else 100,
/// `rebalancer_max_sending`, else 1, and `set`, an array of 1 to 32 tables. The keys of a set are
/// `uuid`, `weight`, else 1, `lock`, else false, and `name`, a text that nothing uses. The ranges
/// are those of `Config` and `SetConfig`.
///
/// The fault is the first in this order: the document; unknown keys at the top; the four numbers;
/// `set`; set by set its unknown keys, `uuid`, `weight`, `lock` and `name`; a uuid that two sets
/// have; weights that are all 0.
pub fn read_config(alloc: Global, text: &[u8]) -> Result<Config, ConfigFault>
    ensures ok { IfOk result (λ c. reading_of text.now ≡ Ok (configuration c)) }
    ensures fault { IfErr result (λ e. e ≢ ConfigFault.NoMemory → reading_of text.now ≡ Err e) }
    ensures not_toml { result ≡ bad ConfigKind.NotToml 0 ConfigKey.Other → (document : Members)
        → ¬ IsDocument text.now document }
    ensures memory { result ≡ Err ConfigFault.NoMemory → ¬ IsBlank text.now }
    ensures lawful { IfOk result (λ c. IsLawful (configuration c)) }
{
    match toml::table_from_slice(alloc, text) {
        Ok(document) => config_in(alloc, &document),
        Err(error) => {
            if error.is_memory() {
                Err(ConfigFault::NoMemory)
            } else {
                Err(ConfigKind::NotToml.at(0, ConfigKey::Other))
            }
        }
    }
}

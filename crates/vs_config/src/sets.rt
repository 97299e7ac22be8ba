//! The sets of a document.

ghost use Rattle.std.specs.Prelude.{◌≡◌, ◌≢◌, ◌≤◌, List, Ok, Err, Some, IfOk, IfErr, is_some, length};
ghost use Rattle.toml.specs.Data.{Members, no_members, as_table};
ghost use Rattle.toml.specs.View.{view, table_view, items_view};
ghost use Rattle.vs_config.specs.Reading.{set_of, sets_from, sets_of, sets_at, tables_of};

use crate::config::SetConfig;
use crate::fault::{ConfigFault, ConfigKind};
use crate::key::ConfigKey;
use crate::set_list::SetList;
use crate::table;
use std::alloc::Global;
use toml::{Table, Value};

// The keys of a set.
const SET_KEYS: [ConfigKey; 4] = [
    ConfigKey::Uuid,
    ConfigKey::Weight,
    ConfigKey::Lock,
    ConfigKey::Name,
];

// The set of this number, whose table is the value.
fn read_set(value: &Value, set: u8) -> Result<SetConfig, ConfigFault>
    ensures { (table : Members) → as_table (view value.now) ≡ Some table
        → result ≡ set_of set table }
{
    let Some(table) = value.as_table() else {
        return Err(ConfigKind::WrongKind.at(0, ConfigKey::Set));
    };
    read_table(table, set)
}

// The set of this number, in this table.
fn read_table(table: &Table, set: u8) -> Result<SetConfig, ConfigFault>
    ensures { result ≡ set_of set (table_view table.now) }
{
    if table::has_other(table, &SET_KEYS) {
        return Err(ConfigKind::UnknownKey.at(set, ConfigKey::Other));
    }
    let uuid = table::uuid(table, set)?;
    let weight = table::number(table, set, ConfigKey::Weight, 0, 1_000_000, 1)?;
    let lock = table::lock(table, set)?;
    table::test_name(table, set)?;
    Ok(SetConfig { uuid, weight, lock })
}

// Each value is a table.
#[tactic(auto, using(crate::proofs::SetTables::value_is_table))]
fn are_tables(values: &[Value]) -> bool
    ensures { result ≡ is_some (tables_of (items_view values.now)) }
{
    for value in values {
        if !value.is_table() {
            return false;
        }
    }
    true
}

// The sets that the values are, each of which is a table.
fn read_tables(alloc: Global, values: &[Value]) -> Result<SetList, ConfigFault>
    requires { length values.now ≤ 32 }
    ensures ok { IfOk result (λ l. (tables : List Members)
        → tables_of (items_view values.now) ≡ Some tables → sets_from 1 tables ≡ Ok l.items) }
    ensures err { IfErr result (λ e. e ≢ ConfigFault.NoMemory → (tables : List Members)
        → tables_of (items_view values.now) ≡ Some tables → sets_from 1 tables ≡ Err e) }
{
    let mut sets = SetList::new(alloc);
    if sets.reserve_many(values.len()).is_err() {
        return Err(ConfigFault::NoMemory);
    }
    for (i, value) in values.iter().enumerate() {
        match read_set(value, i as u8 + 1) {
            Ok(set) => sets.push(set),
            Err(fault) => return Err(fault),
        }
    }
    Ok(sets)
}

// The sets that the values are, where they are 1 to 32 tables.
fn read_sets(alloc: Global, values: &[Value]) -> Result<SetList, ConfigFault>
    ensures ok { IfOk result (λ l. sets_of (items_view values.now) ≡ Ok l.items) }
    ensures err { IfErr result (λ e. e ≢ ConfigFault.NoMemory
        → sets_of (items_view values.now) ≡ Err e) }
{
    if !are_tables(values) {
        return Err(ConfigKind::WrongKind.at(0, ConfigKey::Set));
    }
    if values.is_empty() {
        return Err(ConfigKind::NoSets.at(0, ConfigKey::Other));
    }
    if values.len() > SetList::MAX {
        return Err(ConfigKind::TooManySets.at(0, ConfigKey::Other));
    }
    read_tables(alloc, values)
}

// The sets of a document.
pub fn read(alloc: Global, document: &Table) -> Result<SetList, ConfigFault>
    ensures ok { IfOk result (λ l. sets_at (table_view document.now) ≡ Ok l.items) }
    ensures err { IfErr result (λ e. e ≢ ConfigFault.NoMemory
        → sets_at (table_view document.now) ≡ Err e) }
    ensures memory { result ≡ Err ConfigFault.NoMemory → table_view document.now ≢ no_members }
{
    let key = ConfigKey::Set;
    let Some(value) = table::lookup(document, key) else {
        return Err(ConfigKind::MissingKey.at(0, key));
    };
    let Some(values) = value.as_array() else {
        return Err(ConfigKind::WrongKind.at(0, key));
    };
    read_sets(alloc, values.as_slice())
}

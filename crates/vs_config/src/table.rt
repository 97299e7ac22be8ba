//! What stands in a table of the document: keys, and the values at them.

ghost use Rattle.std.specs.Prelude.{◌≡◌, Ok, option_map, if◌then◌else◌};
ghost use Rattle.std.specs.List.{list_any};
ghost use Rattle.std.specs.Str.{bytes_eq};
ghost use Rattle.toml.specs.Data.{get_member};
ghost use Rattle.toml.specs.View.{view, table_view};
ghost use Rattle.uuid.specs.Text.{parsed};
ghost use Rattle.vs_config.specs.Key.{name_of};
ghost use Rattle.vs_config.specs.Reading.{has_other_key, number_of, number_at, uuid_at, lock_at, name_is_text, or_bad};

use crate::fault::{ConfigFault, ConfigKind};
use crate::key::ConfigKey;
use toml::{Table, Value};
use uuid::Uuid;

// The bytes spell one of these keys.
fn is_one_of(keys: &[ConfigKey], text: &str) -> bool
    ensures { result ≡ list_any (λ key. bytes_eq text.now (name_of key)) keys.now }
{
    keys.iter().any(|key| text == key.name())
}

// The table has a key that is none of these.
#[tactic(auto, using(crate::proofs::Tables::others_view))]
pub fn has_other(table: &Table, keys: &[ConfigKey]) -> bool
    ensures { result ≡ has_other_key keys.now (table_view table.now) }
{
    for key in table.keys() {
        if !is_one_of(keys, key.as_str()) {
            return true;
        }
    }
    false
}

// The value at a key.
pub fn lookup<'a>(table: &'a Table, key: ConfigKey) -> Option<&'a Value>
    ensures { option_map (λ v. view v.now) result
        ≡ get_member (name_of key) (table_view table.now) }
{
    table.get(key.name())
}

// The number that a value is, if it is one of this range.
fn number_in(
    value: &Value,
    set: u8,
    key: ConfigKey,
    low: u32,
    high: u32,
) -> Result<u32, ConfigFault>
    ensures { result ≡ number_of set key low high (view value.now) }
{
    let Some(number) = value.as_integer() else {
        return Err(ConfigKind::WrongKind.at(set, key));
    };
    match u32::try_from(number) {
        Ok(n) if low <= n && n <= high => Ok(n),
        _ => Err(ConfigKind::OutOfRange.at(set, key)),
    }
}

// The uuid that a text is.
fn uuid_in(text: &str, set: u8) -> Result<Uuid, ConfigFault>
    ensures { result ≡ or_bad (parsed text.now) ConfigKind.BadUuid set ConfigKey.Uuid }
{
    match Uuid::try_parse(text) {
        Ok(uuid) => Ok(uuid),
        Err(_) => Err(ConfigKind::BadUuid.at(set, ConfigKey::Uuid)),
    }
}

// The number at a key, or the default.
pub fn number(
    table: &Table,
    set: u8,
    key: ConfigKey,
    low: u32,
    high: u32,
    default: u32,
) -> Result<u32, ConfigFault>
    ensures { result ≡ number_at (table_view table.now) set key low high default }
{
    match lookup(table, key) {
        Some(value) => number_in(value, set, key, low, high),
        None => Ok(default),
    }
}

// The uuid of a set.
pub fn uuid(table: &Table, set: u8) -> Result<Uuid, ConfigFault>
    ensures { result ≡ uuid_at (table_view table.now) set }
{
    let key = ConfigKey::Uuid;
    let Some(value) = lookup(table, key) else {
        return Err(ConfigKind::MissingKey.at(set, key));
    };
    let Some(text) = value.as_str() else {
        return Err(ConfigKind::WrongKind.at(set, key));
    };
    uuid_in(text, set)
}

// Whether a set is locked.
pub fn lock(table: &Table, set: u8) -> Result<bool, ConfigFault>
    ensures { result ≡ lock_at (table_view table.now) set }
{
    let key = ConfigKey::Lock;
    match lookup(table, key) {
        Some(value) => value.as_bool().ok_or(ConfigKind::WrongKind.at(set, key)),
        None => Ok(false),
    }
}

// The name of a set, if it has one, is a text.
pub fn test_name(table: &Table, set: u8) -> Result<(), ConfigFault>
    ensures { result ≡ name_is_text (table_view table.now) set }
{
    let key = ConfigKey::Name;
    match lookup(table, key) {
        Some(value) if !value.is_str() => Err(ConfigKind::WrongKind.at(set, key)),
        _ => Ok(()),
    }
}

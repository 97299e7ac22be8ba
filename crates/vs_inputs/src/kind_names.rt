//! How the kinds of faults are named.

ghost use Rattle.std.specs.Prelude.{◌≡◌, ◌≤◌, length};
ghost use Rattle.vs_inputs.specs.KindNames.{config_kind, script_kind, gather_kind};

use vs_config::ConfigKind;
use vs_script::{GatherKind, ScriptKind};

pub fn config_kind(kind: ConfigKind) -> &'static [u8]
    ensures name { result.now ≡ config_kind kind }
    ensures short { length result.now ≤ 17 }
{
    match kind {
        ConfigKind::NotToml => b"NotToml",
        ConfigKind::UnknownKey => b"UnknownKey",
        ConfigKind::MissingKey => b"MissingKey",
        ConfigKind::WrongKind => b"WrongKind",
        ConfigKind::OutOfRange => b"OutOfRange",
        ConfigKind::NoSets => b"NoSets",
        ConfigKind::TooManySets => b"TooManySets",
        ConfigKind::BadUuid => b"BadUuid",
        ConfigKind::DoubleUuid => b"DoubleUuid",
        ConfigKind::NoWeight => b"NoWeight",
    }
}

pub fn script_kind(kind: ScriptKind) -> &'static [u8]
    ensures name { result.now ≡ script_kind kind }
    ensures short { length result.now ≤ 17 }
{
    match kind {
        ScriptKind::BadByte => b"BadByte",
        ScriptKind::LongWord => b"LongWord",
        ScriptKind::BadHeader => b"BadHeader",
        ScriptKind::BadWord => b"BadWord",
        ScriptKind::BadNumber => b"BadNumber",
        ScriptKind::BadBucket => b"BadBucket",
        ScriptKind::BadSet => b"BadSet",
        ScriptKind::BadClient => b"BadClient",
        ScriptKind::WriteInRo => b"WriteInRo",
        ScriptKind::BadScan => b"BadScan",
        ScriptKind::TooManyOps => b"TooManyOps",
    }
}

pub fn gather_kind(kind: GatherKind) -> &'static [u8]
    ensures name { result.now ≡ gather_kind kind }
    ensures short { length result.now ≤ 17 }
{
    match kind {
        GatherKind::TooManyClients => b"TooManyClients",
        GatherKind::TooManyOperators => b"TooManyOperators",
        GatherKind::TooManyCalls => b"TooManyCalls",
        GatherKind::TooManyScans => b"TooManyScans",
        GatherKind::TooManyCommands => b"TooManyCommands",
        GatherKind::BadClient => b"BadClient",
        GatherKind::BadCall => b"BadCall",
    }
}

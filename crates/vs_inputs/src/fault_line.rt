//! The lines of faults of inputs.

ghost use Rattle.std.specs.Prelude.{◌≡◌, ◌≤◌, ◌+◌, ◌++◌, [], length, IfOk};
ghost use Rattle.std.specs.Fmt.{decimal};
ghost use Rattle.vs_config.specs.Key.{name_of};
ghost use Rattle.vs_inputs.specs.FaultLine.{key_at, config_key, text_fault, fault_line};

use crate::fault::{InputFault, TextFault};
use crate::kind_names::{config_kind, gather_kind, script_kind};
use crate::line::{put, put_decimal};
use std::alloc::Global;
use vs_base::{Items, NoMemory};
use vs_config::{ConfigKey, ConfigKind};

/// How many bytes of room suffice for the line of any fault.
pub const LONGEST_LINE: usize = 128;

/// An empty buffer with room for the line of any fault.
pub fn fault_buffer(alloc: Global) -> Result<Items<u8>, NoMemory>
    ensures empty { IfOk result (λ line. line.items ≡ []) }
    ensures room { IfOk result (λ line. LONGEST_LINE ≤ line.room) }
{
    let mut line = Items::new(alloc);
    line.reserve_many(LONGEST_LINE)?;
    Ok(line)
}

fn key_name(key: ConfigKey) -> &'static [u8]
    ensures name { result.now ≡ name_of key }
    ensures short { length result.now ≤ 31 }
{
    key.name().as_bytes()
}

fn put_key(line: &mut Items<u8>, set: u8, key: ConfigKey)
    requires { 57 ≤ line.old.room }
    ensures items { line.new.items ≡ line.old.items ++ key_at set key }
    ensures room { line.old.room ≤ line.new.room + 57 }
{
    if set == 0 {
        put(line, b" ");
        put(line, key_name(key));
    } else {
        put(line, b" set ");
        put_decimal(line, u64::from(set));
        put(line, b" ");
        put(line, key_name(key));
    }
}

fn put_config_key(line: &mut Items<u8>, kind: ConfigKind, set: u8, key: ConfigKey)
    requires { 57 ≤ line.old.room }
    ensures items { line.new.items ≡ line.old.items ++ config_key kind set key }
    ensures room { line.old.room ≤ line.new.room + 57 }
{
    match kind {
        ConfigKind::NotToml | ConfigKind::NoSets | ConfigKind::TooManySets | ConfigKind::NoWeight =>
            {}
        ConfigKind::UnknownKey
        | ConfigKind::MissingKey
        | ConfigKind::WrongKind
        | ConfigKind::OutOfRange
        | ConfigKind::BadUuid
        | ConfigKind::DoubleUuid => put_key(line, set, key),
    }
}

fn put_config(line: &mut Items<u8>, kind: ConfigKind, set: u8, key: ConfigKey)
    requires { 76 ≤ line.old.room }
    ensures items { line.new.items ≡ line.old.items ++ text_fault (TextFault.Config kind set key) }
    ensures room { line.old.room ≤ line.new.room + 76 }
{
    put(line, b": ");
    put(line, config_kind(kind));
    put_config_key(line, kind, set, key);
}

fn put_numbered(line: &mut Items<u8>, before: &[u8], number: u64, after: &[u8], kind: &[u8])
    requires before { length before.now ≤ 6 }
    requires after { length after.now ≤ 2 }
    requires kind { length kind.now ≤ 17 }
    requires room { 45 ≤ line.old.room }
    ensures items { line.new.items
        ≡ line.old.items ++ (before.now ++ decimal number ++ after.now ++ kind.now) }
    ensures room { line.old.room ≤ line.new.room + 45 }
{
    put(line, before);
    put_decimal(line, number);
    put(line, after);
    put(line, kind);
}

fn put_text_fault(line: &mut Items<u8>, fault: TextFault)
    requires { 76 ≤ line.old.room }
    ensures items { line.new.items ≡ line.old.items ++ text_fault fault }
    ensures room { line.old.room ≤ line.new.room + 76 }
{
    match fault {
        TextFault::TooLong => put(line, b": TooLong"),
        TextFault::Config(kind, set, key) => put_config(line, kind, set, key),
        TextFault::Event(number) => put_numbered(line, b" line ", number, b": ", b"BadEvent"),
        TextFault::Script(kind, number) => put_numbered(
            line,
            b" line ",
            u64::from(number),
            b": ",
            script_kind(kind),
        ),
        TextFault::Gather(kind, item) => put_numbered(
            line,
            b" item ",
            u64::from(item),
            b": ",
            gather_kind(kind),
        ),
    }
}

/// Adds the line of a fault. It takes no memory.
pub fn put_fault(line: &mut Items<u8>, fault: InputFault)
    requires { LONGEST_LINE ≤ line.old.room }
    ensures { line.new.items ≡ line.old.items ++ fault_line fault }
{
    match fault {
        InputFault::Text(input, fault) => {
            put(line, b"vshard: input ");
            put_decimal(line, input);
            put_text_fault(line, fault);
            put(line, b"\n");
        }
        InputFault::Read(input) => {
            put(line, b"vshard: read input ");
            put_decimal(line, input);
            put(line, b"\n");
        }
        InputFault::NoMemory => put(line, b"vshard: memory\n"),
    }
}

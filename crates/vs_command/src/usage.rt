//! The line that says which words are a command.

ghost use Rattle.std.specs.Prelude.{◌≡◌, ◌≤◌, ◌+◌, ◌++◌, length};
ghost use Rattle.vs_command.specs.Usage.{part, usage};

use crate::verbs::Verbs;
use vs_base::Items;

/// How many bytes of room suffice for the line, whatever is built.
pub const LONGEST_USAGE: usize = 160;

const ALWAYS: &[u8] =
    b"vshard: usage: run CONFIG FILE... | play CONFIG EVENTS FILE... | gen NUMBER";

fn put(line: &mut Items<u8>, text: &[u8])
    requires { length text.now ≤ line.old.room }
    ensures items { line.new.items ≡ line.old.items ++ text.now }
    ensures room { line.old.room ≤ line.new.room + length text.now }
{
    for byte in text {
        line.push(*byte);
    }
}

fn put_if(line: &mut Items<u8>, built: bool, text: &[u8])
    requires { length text.now ≤ line.old.room }
    ensures items { line.new.items ≡ line.old.items ++ part built text.now }
    ensures room { line.old.room ≤ line.new.room + length text.now }
{
    if built {
        put(line, text);
    }
}

/// Adds the line that names the commands: `run`, `play` and `gen`, and of the others those that
/// are built. It takes no memory.
pub fn put_usage(line: &mut Items<u8>, verbs: Verbs)
    requires { LONGEST_USAGE ≤ line.old.room }
    ensures { line.new.items ≡ line.old.items ++ usage verbs }
{
    put(line, ALWAYS);
    put_if(line, verbs.reads, b" | reads CONFIG ROWS FILE...");
    put_if(line, verbs.plan, b" | plan CONFIG COUNTS");
    put_if(line, verbs.audit, b" | audit REPORT");
    put_if(line, verbs.info, b" | info CONFIG");
    put(line, b"\n");
}

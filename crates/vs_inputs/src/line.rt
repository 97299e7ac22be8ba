//! A line is written into a buffer that has room for it.

ghost use Rattle.std.specs.Prelude.{◌≡◌, ◌≤◌, ◌+◌, ◌++◌, length};
ghost use Rattle.std.specs.Fmt.{decimal};

use itoa::Buffer;
use vs_base::Items;

/// Adds bytes.
pub fn put(line: &mut Items<u8>, bytes: &[u8])
    requires { length bytes.now ≤ line.old.room }
    ensures items { line.new.items ≡ line.old.items ++ bytes.now }
    ensures room { line.old.room ≤ line.new.room + length bytes.now }
{
    for byte in bytes {
        line.push(*byte);
    }
}

/// Adds the decimal digits of a number, without leading zeros.
pub fn put_decimal(line: &mut Items<u8>, number: u64)
    requires { 20 ≤ line.old.room }
    ensures items { line.new.items ≡ line.old.items ++ decimal number }
    ensures room { line.old.room ≤ line.new.room + 20 }
{
    let mut buffer = Buffer::new();
    put(line, buffer.format(number).as_bytes());
}

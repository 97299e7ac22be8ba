//! Operations on rows.

ghost use Rattle.std.specs.Prelude.{◌≡◌, IfOk};

use crate::key::Key;
use crate::val::Val;
use vs_base::NoMemory;

/// An operation on the rows of a bucket.
#[derive(Drop, PartialEq)]
pub enum Op {
    /// The value of a key.
    Get(Key),
    /// Sets the value of a key, which may be there or not.
    Put(Key, Val),
    /// Sets the value of a key that isn't there.
    Insert(Key, Val),
    /// Removes a key.
    Delete(Key),
    /// Sets the value of a key whose value is the first of the two to the second.
    Swap(Key, Val, Val),
    /// The number of rows.
    Count,
    /// The first rows whose key isn't below this one in byte order, at most so many. Scripts ask
    /// for 1 to 100.
    Scan(Key, u8),
}

impl Op {
    pub fn try_clone(&self) -> Result<Op, NoMemory>
        ensures { IfOk result (λ op. op ≡ self.now) }
    {
        match self {
            Op::Get(key) => Ok(Op::Get(key.try_clone()?)),
            Op::Put(key, value) => Ok(Op::Put(key.try_clone()?, value.try_clone()?)),
            Op::Insert(key, value) => Ok(Op::Insert(key.try_clone()?, value.try_clone()?)),
            Op::Delete(key) => Ok(Op::Delete(key.try_clone()?)),
            Op::Swap(key, old, new) => {
                Ok(Op::Swap(key.try_clone()?, old.try_clone()?, new.try_clone()?))
            }
            Op::Count => Ok(Op::Count),
            Op::Scan(key, n) => Ok(Op::Scan(key.try_clone()?, *n)),
        }
    }
}

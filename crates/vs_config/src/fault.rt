//! Why a text is no configuration.

ghost use Rattle.std.specs.Prelude.{◌≡◌};

use crate::key::ConfigKey;

/// What is wrong with a text that is to be a configuration.
#[derive(Clone, Copy, Debug, PartialEq, Eq)]
pub enum ConfigKind {
    /// It is no TOML document in UTF-8.
    NotToml,
    /// A table has a key that means nothing there.
    UnknownKey,
    /// A key that is needed isn't there.
    MissingKey,
    /// A value isn't of the kind that its key asks for, as a text where a number is needed.
    WrongKind,
    /// A number is outside the range of its key.
    OutOfRange,
    /// The list of sets is empty.
    NoSets,
    /// There are more than 32 sets.
    TooManySets,
    /// A text isn't a uuid.
    BadUuid,
    /// A set has the uuid of an earlier one.
    DoubleUuid,
    /// Each set has the weight 0.
    NoWeight,
}

impl ConfigKind {
    // This is wrong with a key, in the set of this number or, at 0, outside the sets.
    pub(crate) fn at(self, set: u8, key: ConfigKey) -> ConfigFault
        ensures { result ≡ ConfigFault.Bad self set key }
    {
        ConfigFault::Bad {
            kind: self,
            set,
            key,
        }
    }
}

/// Why a text wasn't read as a configuration.
#[derive(Clone, Copy, Debug, PartialEq, Eq)]
pub enum ConfigFault {
    /// The first thing that is wrong with the text.
    Bad {
        kind: ConfigKind,
        /// The number of the set in whose table it stands, from 1, or 0 where it stands in none.
        set: u8,
        /// The key that it is about. It is `Other` at `UnknownKey`, and where no single key is at
        /// fault: at `NotToml`, `NoSets`, `TooManySets` and `NoWeight`.
        key: ConfigKey,
    },
    /// Want of memory, which says nothing of the text.
    NoMemory,
}

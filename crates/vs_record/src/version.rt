//! The versions of a journal's bodies.

ghost use Rattle.std.specs.Prelude.{◌≡◌};

use vs_rows::LONGEST_VALUE;

/// How a body spells the values of rows. In version 1 the length of a value is one byte, in
/// version 2 it is two.
#[derive(Clone, Copy)]
pub(crate) enum Version {
    One,
    Two,
}

impl Version {
    ghost use Rattle.vs_record.specs.Body.{value_limit_in};

    /// The most bytes of a value.
    pub(crate) fn longest_value(self) -> usize
        ensures { result ≡ value_limit_in self }
    {
        match self {
            Version::One => 64,
            Version::Two => LONGEST_VALUE,
        }
    }
}

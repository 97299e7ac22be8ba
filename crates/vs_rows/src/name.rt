//! The texts that may be keys and values.

ghost use Rattle.std.specs.Prelude.{IsTrue, ◌↔◌};
ghost use Rattle.vs_rows.specs.Names.{IsName};

/// The most bytes of a key.
pub const LONGEST_KEY: usize = 64;

/// The most bytes of a value.
pub const LONGEST_VALUE: usize = 256;

/// Whether a text may be a key or a value of at most so many bytes.
pub(crate) fn is_name(bytes: &[u8], most: usize) -> bool
    ensures { IsTrue result ↔ IsName most bytes.now }
{
    !bytes.is_empty()
        && bytes.len() <= most
        && bytes.iter().all(|b| *b >= 0x21 && *b <= 0x7E)
        && bytes != b";".as_slice()
}

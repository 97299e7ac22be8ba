//! The kinds of calls that are generated.

ghost use Rattle.std.specs.Prelude.{◌≡◌};
ghost use Rattle.vs_gen.specs.Calls.{kind_of, mode_of};

use vs_base::Mode;

/// What a generated call does.
#[derive(Clone, Copy)]
pub enum Kind {
    /// Gets a key.
    Get,
    /// Puts a value at a key.
    Put,
    /// Inserts a value at a key, and counts the rows.
    InsertAndCount,
    /// Counts the rows, and reads the first five from a key on.
    CountAndScan,
}

impl Kind {
    pub fn of(draw: u32) -> Kind
        ensures { result ≡ kind_of draw }
    {
        match draw % 4 {
            0 => Kind::Get,
            1 => Kind::Put,
            2 => Kind::InsertAndCount,
            _ => Kind::CountAndScan,
        }
    }

    /// Whether its calls only read.
    pub fn mode(self) -> Mode
        ensures { result ≡ mode_of self }
    {
        match self {
            Kind::Get | Kind::CountAndScan => Mode::Ro,
            Kind::Put | Kind::InsertAndCount => Mode::Rw,
        }
    }
}

//! The references of one bucket.

ghost use Rattle.std.specs.Prelude.{◌≡◌, ◌↔◌, IsTrue};

use vs_base::Mode;

/// The references of one bucket at one set, as a storage of vshard counts them: the calls that are
/// running, by their mode, and the locks.
#[derive(Clone, Copy, Default, PartialEq, Eq)]
pub struct Counts {
    /// How many reads are running.
    pub ro: u32,
    /// How many writes are running.
    pub rw: u32,
    /// Whether no further read may begin.
    pub ro_lock: bool,
    /// Whether no further write may begin.
    pub rw_lock: bool,
}

impl Counts {
    ghost use Rattle.vs_refs.specs.Counts.{no_counts, count_of, lock_of, with_count, with_lock};

    /// How many calls of this mode are running.
    pub fn count(self, mode: Mode) -> u32
        ensures { result ≡ count_of self mode }
    {
        match mode {
            Mode::Ro => self.ro,
            Mode::Rw => self.rw,
        }
    }

    /// Whether the lock against calls of this mode stands.
    pub fn is_locked(self, mode: Mode) -> bool
        ensures { result ≡ lock_of self mode }
    {
        match mode {
            Mode::Ro => self.ro_lock,
            Mode::Rw => self.rw_lock,
        }
    }

    /// Whether there are no references and no locks.
    pub fn is_none(self) -> bool
        ensures { IsTrue result ↔ (self ≡ no_counts) }
    {
        matches!(
            self,
            Counts {
                ro: 0,
                rw: 0,
                ro_lock: false,
                rw_lock: false,
            }
        )
    }

    /// The same, but for the number of calls of this mode.
    pub fn with_count(self, mode: Mode, count: u32) -> Counts
        ensures { result ≡ with_count self mode count }
    {
        match mode {
            Mode::Ro => Counts { ro: count, ..self },
            Mode::Rw => Counts { rw: count, ..self },
        }
    }

    /// The same, but for the lock against calls of this mode.
    pub fn with_lock(self, mode: Mode, lock: bool) -> Counts
        ensures { result ≡ with_lock self mode lock }
    {
        match mode {
            Mode::Ro => Counts {
                ro_lock: lock,
                ..self
            },
            Mode::Rw => Counts {
                rw_lock: lock,
                ..self
            },
        }
    }
}

ghost use Rattle.std.specs.Prelude.{IsTrue};
ghost use Rattle.vs_host.specs.Told.{Told};
ghost use Rattle.vs_host.specs.Calls.{Reads, PutsOut, Logs};

use crate::fault::{HostFailed, HostRead};

/// Named files, a text that is put out, and a log.
pub trait Host {
    /// What the host tells of itself.
    ghost told: { Self → Told };

    /// Reads a whole file of at most `limit` bytes.
    fn read(&mut self, name: &str, limit: u64) -> Result<Vec<u8>, HostRead>
        requires { IsTrue ((told self.old).may_read name.now) }
        ensures { Reads name.now limit (told self.old) (told self.new) result };

    /// Puts all the bytes out, after those that were put out before.
    fn out(&mut self, bytes: &[u8]) -> Result<(), HostFailed>
        ensures { PutsOut bytes.now (told self.old) (told self.new) result };

    /// Logs all the bytes, after those that were logged before.
    fn log(&mut self, bytes: &[u8]) -> Result<(), HostFailed>
        ensures { Logs bytes.now (told self.old) (told self.new) result };
}

//! The outside as a disk: what a read gives, and what a crash may leave.

ghost use Rattle.std.specs.Prelude.{◌≡◌, ◌+◌, ◌-◌, ◌≤◌, ◌++◌, min, length, take, drop, IfOk, IsOk, OnOk, OnErr};
ghost use Rattle.std.specs.Result.{IsErrOf};
ghost use Rattle.vs_disk.specs.Told.{Told, IsOpen, Failed, Reads, IsSynced};
ghost use Rattle.vs_disk.specs.Model.{wrote, Torn, Keeps, IsUntouched, Rests, Tears, IsLawful};

use vs_base::NoMemory;

/// A call of a disk failed.
#[derive(Clone, Copy, Debug, PartialEq, Eq)]
pub struct DiskFailed;

/// Why a disk wasn't opened.
#[derive(Clone, Copy, Debug, PartialEq, Eq)]
pub enum DiskOpen {
    Failed,
    NoMemory,
}

/// One file of bytes. Of an honest disk the clauses say what a read gives and what a crash may
/// leave. Of one that tells its reads alone, they say what a read gives. Of any disk they say
/// whether it is open, its room and its faults.
pub trait Disk {
    /// What it tells.
    ghost told: { Self → Told };

    /// How often it failed, up to 2^63.
    fn faults(&self) -> u64
        ensures { result ≡ (told self.now).faults };

    /// Makes it ready, with length 0 where nothing was there. On a disk that is open it does
    /// nothing.
    fn open(&mut self) -> Result<(), DiskOpen>
        ensures open { OnOk result (IsOpen (told self.new)) }
        ensures nothing { IsOpen (told self.old) → IsOk result × (self.new ≡ self.old) }
        ensures failed { IsErrOf result DiskOpen.Failed → Failed (told self.old) (told self.new) }
        ensures memory { IsErrOf result DiskOpen.NoMemory
            → IsUntouched (told self.old) (told self.new) }
        ensures rests { Rests (told self.old) (told self.new) }
        ensures keeps { Keeps (told self.old) (told self.new) };

    /// Makes room for a length, in bytes.
    fn reserve(&mut self, len: u64) -> Result<(), NoMemory>
        ensures room { OnOk result (len ≤ (told self.new).reserved) }
        ensures memory { OnErr result (IsUntouched (told self.old) (told self.new)) }
        ensures rests { Rests (told self.old) (told self.new) }
        ensures keeps { Keeps (told self.old) (told self.new) };

    /// Its length, in bytes.
    fn len(&mut self) -> Result<u64, DiskFailed>
        requires { IsOpen (told self.old) }
        ensures length { IfOk result (λ n. Reads (told self.old) (λ file. n ≡ length file)) }
        ensures failed { OnErr result (Failed (told self.old) (told self.new)) }
        ensures rests { Rests (told self.old) (told self.new) }
        ensures keeps { Keeps (told self.old) (told self.new) };

    /// Reads from a place on, and tells how many bytes there were, up to the end.
    fn read(&mut self, at: u64, into: &mut [u8]) -> Result<usize, DiskFailed>
        requires { IsOpen (told self.old) }
        ensures within { IfOk result (λ n. n ≤ length into.old) }
        ensures count { IfOk result (λ n. Reads (told self.old) (λ file.
            n ≡ min (length into.old) (length file - at))) }
        ensures bytes { IfOk result (λ n. Reads (told self.old) (λ file.
            into.new ≡ take n (drop at file) ++ drop n into.old)) }
        ensures failed { OnErr result (Failed (told self.old) (told self.new)) }
        ensures rests { Rests (told self.old) (told self.new) }
        ensures keeps { Keeps (told self.old) (told self.new) };

    /// Writes over what is there, and past the end. Until a sync a crash may leave any bytes in the
    /// range.
    fn write_at(&mut self, at: u64, bytes: &[u8]) -> Result<(), DiskFailed>
        requires open { IsOpen (told self.old) }
        requires room { at + length bytes.now ≤ (told self.old).reserved }
        requires within { Reads (told self.old) (λ file. at ≤ length file) }
        ensures written { OnOk result (Reads (told self.old) (λ file.
            (told self.new).reads_as ≡ wrote file at bytes.now)) }
        ensures torn { OnErr result (Reads (told self.old) (λ file.
            Torn at (length bytes.now) file (told self.new).reads_as)) }
        ensures failed { OnErr result (Failed (told self.old) (told self.new)) }
        ensures tears { Tears at (length bytes.now) (told self.old) (told self.new) }
        ensures keeps { Keeps (told self.old) (told self.new) };

    /// After it, a crash leaves what a read gives.
    fn sync(&mut self) -> Result<(), DiskFailed>
        requires { IsOpen (told self.old) }
        ensures durable { OnOk result (IsSynced (told self.new)) }
        ensures failed { OnErr result (Failed (told self.old) (told self.new)) }
        ensures rests { Rests (told self.old) (told self.new) }
        ensures keeps { Keeps (told self.old) (told self.new) };

    ghost lawful: { (disk : Self) → IsLawful (told disk) };
}

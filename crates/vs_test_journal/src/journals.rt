ghost use Rattle.std.specs.Prelude.{◌≡◌};

use uuid::Uuid;
use vs_disk::FailingCall;
use vs_frame::Head;

/// The journal of a set with the buckets 1 to 3 of four, and a write.
pub const JOURNAL: &[u8; 68] =
    b"VSJRNL02\x00\x00\x00\x00\x00\x00\x40\x00\x80\x00\x00\x00\x00\x00\x00\x01\
    \x04\x00\x00\x00\x01\x00\x00\x00\x03\x00\x00\x00\x00\
    \xa5\x19\x00\x00\x00\x01\x00\x00\x00\x00\x00\x00\x00\
    \x03\x01\x01\x00\x00\x00\x03\x00\x00\x00\x01\x02\x01a\x01\x001\x00";

/// The same in version 1.
pub const FIRST: &[u8; 58] =
    b"VSJRNL01\x00\x00\x00\x00\x00\x00\x40\x00\x80\x00\x00\x00\x00\x00\x00\x01\
    \x04\x00\x00\x00\x01\x00\x00\x00\x03\x00\x00\x00\
    \xa5\x10\x00\x00\x00\x03\x01\x01\x00\x00\x00\x03\x00\x00\x00\x01\x02\x01a\x011\x00";

/// A failure that never comes.
pub const NEVER: FailingCall = FailingCall {
    call: u64::MAX,
    put: 0,
};

/// The head of that journal.
pub fn head() -> Head
    ensures bucket_count { result.bucket_count ≡ 4 }
    ensures boot_first { result.boot_first ≡ 1 }
    ensures boot_count { result.boot_count ≡ 3 }
{
    Head {
        uuid: Uuid::from_u128(0x4000_8000_0000_0000_0001),
        bucket_count: 4,
        boot_first: 1,
        boot_count: 3,
    }
}

//! Bytes in memory: writing over them, and reading a part of them.

ghost use Rattle.std.specs.Prelude.{◌≡◌, ◌+◌, ◌-◌, ◌≤◌, ◌++◌, min, length, take, drop, vec_capacity};
ghost use Rattle.vs_disk.specs.Model.{wrote};

// Puts a piece at a place, or at the end where that is nearer.
pub fn overwrite(bytes: &mut Vec<u8>, at: usize, piece: &[u8])
    requires { min at (length bytes.old.items) + length piece.now ≤ vec_capacity bytes.old }
    ensures items { bytes.new.items ≡ wrote bytes.old.items at piece.now }
    ensures capacity { vec_capacity bytes.old ≤ vec_capacity bytes.new }
{
    let at = at.min(bytes.len());
    let over = piece.len().min(bytes.len() - at);
    bytes[at..at + over].copy_from_slice(&piece[..over]);
    bytes.extend_from_slice(&piece[over..]).unwrap();
}

// Reads from a place on, up to the end.
pub fn read_from(bytes: &[u8], at: u64, into: &mut [u8]) -> usize
    ensures count { result ≡ min (length into.old) (length bytes.now - at) }
    ensures bytes { into.new ≡ take result (drop at bytes.now) ++ drop result into.old }
{
    if at >= bytes.len() as u64 {
        return 0;
    }
    let rest = &bytes[at as usize..];
    let count = into.len().min(rest.len());
    into[..count].copy_from_slice(&rest[..count]);
    count
}

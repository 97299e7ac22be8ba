//! The three steps of a deletion. None takes memory.

ghost use Rattle.std.specs.Prelude.{◌≡◌, ◌≤◌, OnOk, OnErr, drop};
ghost use Rattle.vs_collect.specs.Collect.{condemned, wiped, forgotten};

use crate::unmet::Unmet;
use vs_rows::Rows;
use vs_space::Status;

/// The most rows that one step deletes.
const MAX_ROWS: u16 = 1_000;

/// Whether a sent bucket may become garbage: no transfer of it is live any more, and none of its reads is running.
/// `reads` is the number of read-only references.
pub fn condemn(status: Option<Status>, live: bool, reads: u32) -> Result<(), Unmet>
    ensures { result ≡ condemned status live reads }
{
    match status {
        Some(Status::Sent(_)) if live => Err(Unmet::Live),
        Some(Status::Sent(_)) if reads > 0 => Err(Unmet::Referenced(reads)),
        Some(Status::Sent(_)) => Ok(()),
        other => Err(Unmet::Unfit(other)),
    }
}

/// Deletes the first rows of a bucket that is garbage, up to 1,000 of them, and says how many.
pub fn wipe_some(status: Option<Status>, rows: &mut Rows) -> Result<u16, Unmet>
    ensures answer { result ≡ wiped status rows.old.items }
    ensures ok { OnOk result (rows.new.items ≡ drop 1000 rows.old.items) }
    ensures err { OnErr result (rows.new ≡ rows.old) }
    ensures room { rows.old.room ≤ rows.new.room }
{
    match status {
        Some(Status::Garbage) if rows.is_empty() => Err(Unmet::NoRows),
        Some(Status::Garbage) => Ok(rows.wipe(MAX_ROWS)),
        other => Err(Unmet::Unfit(other)),
    }
}

/// Whether the entry of a bucket that is garbage may be removed: none of its rows is left. `rows` is their number.
pub fn forget(status: Option<Status>, rows: usize) -> Result<(), Unmet>
    ensures { result ≡ forgotten status rows }
{
    match status {
        Some(Status::Garbage) if rows > 0 => Err(Unmet::Rows(rows as u64)),
        Some(Status::Garbage) => Ok(()),
        other => Err(Unmet::Unfit(other)),
    }
}

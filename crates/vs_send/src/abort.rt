//! Why a transfer is given up.

use vs_base::SetNo;
use vs_space::RecvFault;

/// Why a transfer is given up.
#[derive(Clone, Copy, Debug)]
pub enum AbortCause {
    /// It waited 256 turns, and a write is still running.
    Drained,
    /// The receiver refused.
    Receiver(RecvFault),
    /// The connection was closed while it waited.
    Closed,
    /// The receiver is down.
    SetDown(SetNo),
    /// Its own set went down.
    Stopped,
}

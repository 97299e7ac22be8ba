//! One file is read.

ghost use Rattle.std.specs.Prelude.{IsTrue};
ghost use Rattle.vs_inputs.specs.Reading.{ReadsText};

use crate::fault::{InputFault, TextFault};
use vs_host::{Host, HostRead};

/// The greatest length of a text: 256 MiB.
pub const MOST_BYTES: u64 = 1 << 28;

/// Reads the file of an input.
pub fn read_text<H: Host>(host: &mut H, name: &str, place: u64) -> Result<Vec<u8>, InputFault>
    requires { IsTrue ((H.told host.old).may_read name.now) }
    ensures { ReadsText name.now place (H.told host.old) (H.told host.new) result }
{
    match host.read(name, MOST_BYTES) {
        Ok(text) => Ok(text),
        Err(HostRead::Failed) => Err(InputFault::Read(place)),
        Err(HostRead::TooLong) => Err(InputFault::Text(place, TextFault::TooLong)),
        Err(HostRead::NoMemory) => Err(InputFault::NoMemory),
    }
}

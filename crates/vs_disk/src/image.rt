//! What a crash leaves of a disk in memory, by a record of its calls.

ghost use Rattle.std.specs.Prelude.{◌≡◌, ◌≤◌, reverse, IfOk, OnOk};
ghost use Rattle.vs_disk.specs.Model.{wrote};
ghost use Rattle.vs_disk.specs.Images.{picked, picked_on, played_on};

use crate::bytes::overwrite;
use crate::call::MemCall;
use std::alloc::{AllocError, Global};

const SMEAR: u8 = 0xa5;

// Writes over bytes, and past their end.
fn write_over(bytes: &mut Vec<u8>, at: u64, piece: &[u8]) -> Result<(), AllocError>
    ensures { OnOk result (bytes.new.items ≡ wrote bytes.old.items at piece.now) }
{
    bytes.reserve(piece.len())?;
    overwrite(bytes, at as usize, piece);
    Ok(())
}

// One call more for what a read gives.
fn play(now: &mut Vec<u8>, call: &MemCall) -> Result<(), AllocError>
    ensures { OnOk result (now.new.items ≡ played_on now.old.items call.now) }
{
    match call {
        MemCall::Quiet | MemCall::Sync => Ok(()),
        MemCall::Write(at, bytes) => write_over(now, *at, bytes),
    }
}

// One call more for the image that a number picks, where a read gave `now`.
fn play_image(
    alloc: Global,
    now: &[u8],
    image: &mut Vec<u8>,
    call: &MemCall,
    pick: u8,
) -> Result<(), AllocError>
    requires { pick ≤ 2 }
    ensures { OnOk result (image.new.items ≡ picked_on pick now.now image.old.items call.now) }
{
    match call {
        MemCall::Quiet => Ok(()),
        MemCall::Write(at, bytes) => match pick {
            0 => Ok(()),
            1 => write_over(image, *at, bytes),
            _ => write_over(image, *at, &vec![in alloc; SMEAR; bytes.len()]?),
        },
        MemCall::Sync => {
            image.clear();
            image.extend_from_slice(now)
        }
    }
}

// Plays calls, the first of them first, and gives the image that a number picks.
pub fn image_after(
    alloc: Global,
    first: &[u8],
    calls: &[MemCall],
    pick: u8,
) -> Result<Vec<u8>, AllocError>
    requires { pick ≤ 2 }
    ensures { IfOk result (λ image. image.items ≡ picked pick first.now (reverse calls.now)) }
{
    let mut now = first.to_vec(alloc)?;
    let mut image = first.to_vec(alloc)?;
    for call in calls {
        play_image(alloc, &now, &mut image, call, pick)?;
        play(&mut now, call)?;
    }
    Ok(image)
}

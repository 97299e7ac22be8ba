//! The fields of a body: each is read from the front, and given with the bytes behind it.

ghost use Rattle.std.specs.Prelude.{◌≡◌, Some};
ghost use Rattle.std.specs.Int.{w16, w32, w64};
ghost use Rattle.std.specs.Option.{option_map};
ghost use Rattle.vs_record.specs.Reading.{Gives, byte_at, number_at, bucket_at, set_at, client_at, text_behind, key_at, length_at, value_at, row_at, values_at, few_at, many_at, status_by, status_at};

use crate::fault::RecordFault;
use crate::version::Version;
use std::alloc::Global;
use vs_base::{BucketId, ClientNo, SetNo};
use vs_rows::{Key, RowFault, Val};
use vs_space::Status;

pub(crate) fn byte_at(bytes: &[u8]) -> Option<(u8, &[u8])>
    ensures { option_map (λ x. (x.0, x.1.now)) result ≡ byte_at bytes.now }
{
    match bytes {
        [byte, rest @ ..] => Some((*byte, rest)),
        [] => None,
    }
}

#[tactic(auto, unfolding(crate::specs::Reading::number_at))]
pub(crate) fn two_at(bytes: &[u8]) -> Option<(u16, &[u8])>
    ensures { option_map (λ x. (x.0, x.1.now)) result ≡ number_at w16 bytes.now }
{
    if bytes.len() < 2 {
        return None;
    }
    let (front, rest) = bytes.split_at(2);
    Some((u16::from_le_bytes([front[0], front[1]]), rest))
}

#[tactic(auto, unfolding(crate::specs::Reading::number_at))]
pub(crate) fn four_at(bytes: &[u8]) -> Option<(u32, &[u8])>
    ensures { option_map (λ x. (x.0, x.1.now)) result ≡ number_at w32 bytes.now }
{
    if bytes.len() < 4 {
        return None;
    }
    let (front, rest) = bytes.split_at(4);
    Some((
        u32::from_le_bytes([front[0], front[1], front[2], front[3]]),
        rest,
    ))
}

#[tactic(auto, unfolding(crate::specs::Reading::number_at))]
pub(crate) fn eight_at(bytes: &[u8]) -> Option<(u64, &[u8])>
    ensures { option_map (λ x. (x.0, x.1.now)) result ≡ number_at w64 bytes.now }
{
    if bytes.len() < 8 {
        return None;
    }
    let (front, rest) = bytes.split_at(8);
    let mut eight = [0; 8];
    eight.copy_from_slice(front);
    Some((u64::from_le_bytes(eight), rest))
}

#[tactic(auto, unfolding(crate::specs::Reading::bucket_at))]
pub(crate) fn bucket_at(bytes: &[u8]) -> Option<(BucketId, &[u8])>
    ensures { option_map (λ x. (x.0, x.1.now)) result ≡ bucket_at bytes.now }
{
    let (number, rest) = four_at(bytes)?;
    match BucketId::new(number) {
        Some(bucket) => Some((bucket, rest)),
        None => None,
    }
}

#[tactic(auto, unfolding(crate::specs::Reading::set_at))]
pub(crate) fn set_at(bytes: &[u8]) -> Option<(SetNo, &[u8])>
    ensures { option_map (λ x. (x.0, x.1.now)) result ≡ set_at bytes.now }
{
    let (number, rest) = byte_at(bytes)?;
    match SetNo::new(number) {
        Some(set) => Some((set, rest)),
        None => None,
    }
}

// As many bytes as the number says that stood in front of them.
fn text_behind(size: usize, bytes: &[u8]) -> Result<(&[u8], &[u8]), RecordFault>
    ensures { Gives (λ x. (x.0.now, x.1.now)) result (text_behind (Some (size, bytes.now))) }
{
    if bytes.len() < size {
        return Err(RecordFault::BadBody);
    }
    Ok(bytes.split_at(size))
}

#[tactic(auto, using(crate::proofs::Names::named, crate::proofs::Names::unnamed), unfolding(crate::specs::Reading::key_at))]
pub(crate) fn key_at(alloc: Global, bytes: &[u8]) -> Result<(Key, &[u8]), RecordFault>
    ensures { Gives (λ x. (x.0, x.1.now)) result (key_at bytes.now) }
{
    let Some((size, rest)) = byte_at(bytes) else {
        return Err(RecordFault::BadBody);
    };
    let (text, rest) = text_behind(usize::from(size), rest)?;
    match Key::new(alloc, text) {
        Ok(key) => Ok((key, rest)),
        Err(RowFault::BadText) => Err(RecordFault::BadBody),
        Err(RowFault::NoMemory) => Err(RecordFault::NoMemory),
    }
}

#[tactic(auto, unfolding(crate::specs::Reading::length_at))]
fn length_at(version: Version, bytes: &[u8]) -> Option<(usize, &[u8])>
    ensures { option_map (λ x. (x.0, x.1.now)) result ≡ length_at version bytes.now }
{
    match version {
        Version::One => {
            let (size, rest) = byte_at(bytes)?;
            Some((usize::from(size), rest))
        }
        Version::Two => {
            let (size, rest) = two_at(bytes)?;
            Some((usize::from(size), rest))
        }
    }
}

#[tactic(auto, using(crate::proofs::Names::named, crate::proofs::Names::unnamed), unfolding(crate::specs::Reading::value_at))]
fn value_at(alloc: Global, version: Version, bytes: &[u8]) -> Result<(Val, &[u8]), RecordFault>
    ensures { Gives (λ x. (x.0, x.1.now)) result (value_at version bytes.now) }
{
    let Some((size, rest)) = length_at(version, bytes) else {
        return Err(RecordFault::BadBody);
    };
    let (text, rest) = text_behind(size, rest)?;
    if text.len() > version.longest_value() {
        return Err(RecordFault::BadBody);
    }
    match Val::new(alloc, text) {
        Ok(value) => Ok((value, rest)),
        Err(RowFault::BadText) => Err(RecordFault::BadBody),
        Err(RowFault::NoMemory) => Err(RecordFault::NoMemory),
    }
}

#[tactic(auto, unfolding(crate::specs::Reading::row_at))]
pub(crate) fn row_at(
    alloc: Global,
    version: Version,
    bytes: &[u8],
) -> Result<((Key, Val), &[u8]), RecordFault>
    ensures { Gives (λ x. (x.0, x.1.now)) result (row_at version bytes.now) }
{
    let (key, rest) = key_at(alloc, bytes)?;
    let (value, rest) = value_at(alloc, version, rest)?;
    Ok(((key, value), rest))
}

#[tactic(auto, unfolding(crate::specs::Reading::values_at))]
pub(crate) fn values_at(
    alloc: Global,
    version: Version,
    bytes: &[u8],
) -> Result<((Val, Val), &[u8]), RecordFault>
    ensures { Gives (λ x. (x.0, x.1.now)) result (values_at version bytes.now) }
{
    let (first, rest) = value_at(alloc, version, bytes)?;
    let (second, rest) = value_at(alloc, version, rest)?;
    Ok(((first, second), rest))
}

#[tactic(auto, unfolding(crate::specs::Reading::client_at))]
pub(crate) fn client_at(bytes: &[u8]) -> Option<(ClientNo, &[u8])>
    ensures { option_map (λ x. (x.0, x.1.now)) result ≡ client_at bytes.now }
{
    let (number, rest) = byte_at(bytes)?;
    match ClientNo::new(number) {
        Some(client) => Some((client, rest)),
        None => None,
    }
}

#[tactic(auto, unfolding(crate::specs::Reading::few_at))]
pub(crate) fn few_at(bytes: &[u8]) -> Option<(u8, &[u8])>
    ensures { option_map (λ x. (x.0, x.1.now)) result ≡ few_at bytes.now }
{
    let (n, rest) = byte_at(bytes)?;
    if n < 1 || n > 100 {
        return None;
    }
    Some((n, rest))
}

#[tactic(auto, unfolding(crate::specs::Reading::many_at))]
pub(crate) fn many_at(bytes: &[u8]) -> Option<(u16, &[u8])>
    ensures { option_map (λ x. (x.0, x.1.now)) result ≡ many_at bytes.now }
{
    let (n, rest) = two_at(bytes)?;
    if n < 1 || n > 1000 {
        return None;
    }
    Some((n, rest))
}

fn status_by(tag: u8, other: u8) -> Option<Status>
    ensures { result ≡ status_by tag other }
{
    if other == 0 {
        return match tag {
            1 => Some(Status::Active),
            2 => Some(Status::Pinned),
            6 => Some(Status::Garbage),
            _ => None,
        };
    }
    let set = SetNo::new(other)?;
    match tag {
        3 => Some(Status::Sending(set)),
        4 => Some(Status::Receiving(set)),
        5 => Some(Status::Sent(set)),
        _ => None,
    }
}

#[tactic(auto, unfolding(crate::specs::Reading::status_at))]
pub(crate) fn status_at(bytes: &[u8]) -> Option<(Status, &[u8])>
    ensures { option_map (λ x. (x.0, x.1.now)) result ≡ status_at bytes.now }
{
    let (tag, rest) = byte_at(bytes)?;
    let (other, rest) = byte_at(rest)?;
    match status_by(tag, other) {
        Some(status) => Some((status, rest)),
        None => None,
    }
}

// The words of records and slots, read at the front of bytes.
ghost use Rattle.std.specs.Prelude.{◌≡◌, length};
ghost use Rattle.std.specs.Int.{w16, w32, w64};
ghost use Rattle.journal_text.specs.Reading.{Gives, after_head, ended, flag_at, front_at, long_at, name_at, number_at, path_at, short_at, version_at};

use crate::stop::Stop;
use opam_names::{Items, Name, ReadFault, RelPath, Version};
use std::alloc::Global;

pub(crate) fn count_of(text: &[u8]) -> Result<(u32, &[u8]), Stop>
    ensures { Gives (λ x. (x.0, x.1.now)) result (number_at w32 text.now) }
{
    if text.len() < 4 {
        return Err(Stop::Bad);
    }
    let (front, rest) = text.split_at(4);
    let count = u32::from_be_bytes([front[0], front[1], front[2], front[3]]);
    Ok((count, rest))
}

pub(crate) fn number_of(text: &[u8]) -> Result<(u64, &[u8]), Stop>
    ensures { Gives (λ x. (x.0, x.1.now)) result (number_at w64 text.now) }
{
    if text.len() < 8 {
        return Err(Stop::Bad);
    }
    let (front, rest) = text.split_at(8);
    let number = u64::from_be_bytes([
        front[0], front[1], front[2], front[3], front[4], front[5], front[6], front[7],
    ]);
    Ok((number, rest))
}

pub(crate) fn flag_of(text: &[u8]) -> Result<(bool, &[u8]), Stop>
    ensures { Gives (λ x. (x.0, x.1.now)) result (flag_at text.now) }
{
    match text {
        [0, rest @ ..] => Ok((false, rest)),
        [1, rest @ ..] => Ok((true, rest)),
        _ => Err(Stop::Bad),
    }
}

fn half_of(text: &[u8]) -> Result<(u16, &[u8]), Stop>
    ensures { Gives (λ x. (x.0, x.1.now)) result (number_at w16 text.now) }
{
    if text.len() < 2 {
        return Err(Stop::Bad);
    }
    let (front, rest) = text.split_at(2);
    let number = u16::from_be_bytes([front[0], front[1]]);
    Ok((number, rest))
}

// So many bytes, where there are so many.
fn front_of(text: &[u8], len: usize) -> Result<(&[u8], &[u8]), Stop>
    ensures { Gives (λ x. (x.0.now, x.1.now)) result (front_at len text.now) }
{
    if text.len() < len {
        return Err(Stop::Bad);
    }
    Ok(text.split_at(len))
}

#[tactic(auto, unfolding(crate::specs::Reading::text_at))]
fn short_of(text: &[u8]) -> Result<(&[u8], &[u8]), Stop>
    ensures { Gives (λ x. (x.0.now, x.1.now)) result (short_at text.now) }
{
    let (len, rest) = half_of(text)?;
    front_of(rest, len as usize)
}

#[tactic(auto, unfolding(crate::specs::Reading::text_at))]
pub(crate) fn long_of(alloc: Global, text: &[u8]) -> Result<(Items<u8>, &[u8]), Stop>
    ensures { Gives (λ x. (x.0, x.1.now)) result (long_at text.now) }
{
    let (len, rest) = count_of(text)?;
    let (front, rest) = front_of(rest, len as usize)?;
    Ok((Items::from_slice(alloc, front)?, rest))
}

#[tactic(auto, unfolding(crate::specs::Reading::such_at))]
pub(crate) fn name_of(alloc: Global, text: &[u8]) -> Result<(Name, &[u8]), Stop>
    ensures { Gives (λ x. (x.0, x.1.now)) result (name_at text.now) }
{
    let (bytes, rest) = short_of(text)?;
    if !Name::is_name(bytes) {
        return Err(Stop::Bad);
    }
    match Name::read(alloc, bytes) {
        Ok(name) => Ok((name, rest)),
        Err(_) => Err(Stop::Memory),
    }
}

#[tactic(auto, unfolding(crate::specs::Reading::such_at))]
pub(crate) fn version_of(alloc: Global, text: &[u8]) -> Result<(Version, &[u8]), Stop>
    ensures { Gives (λ x. (x.0, x.1.now)) result (version_at text.now) }
{
    let (bytes, rest) = short_of(text)?;
    if !Version::is_version(bytes) {
        return Err(Stop::Bad);
    }
    match Version::read(alloc, bytes) {
        Ok(version) => Ok((version, rest)),
        Err(_) => Err(Stop::Memory),
    }
}

#[tactic(auto, unfolding(crate::specs::Reading::such_at))]
pub(crate) fn path_of(alloc: Global, text: &[u8]) -> Result<(RelPath, &[u8]), Stop>
    ensures { Gives (λ x. (x.0, x.1.now)) result (path_at text.now) }
{
    let (bytes, rest) = short_of(text)?;
    if !RelPath::is_path(bytes) {
        return Err(Stop::Bad);
    }
    match RelPath::read(alloc, bytes) {
        Ok(path) => Ok((path, rest)),
        Err(_) => Err(Stop::Memory),
    }
}

// The value, where nothing follows it.
pub(crate) fn ended<T: Drop>(value: T, rest: &[u8]) -> Result<T, Stop>
    ensures { Gives (λ x. x) result (ended value rest.now) }
{
    if rest.is_empty() {
        Ok(value)
    } else {
        Err(Stop::Bad)
    }
}

// The bytes after the eight that name a format.
#[tactic(auto, unfolding(crate::specs::Reading::after_head))]
pub(crate) fn behind<'a>(text: &'a [u8], head: &[u8; 8]) -> Result<&'a [u8], Stop>
    ensures { Gives (λ x. x.now) result (after_head head.now text.now) }
{
    if text.len() < 8 {
        return Err(Stop::Bad);
    }
    let (front, rest) = text.split_at(8);
    if front == head.as_slice() {
        Ok(rest)
    } else {
        Err(Stop::Bad)
    }
}

// The first bracket or prefix operator of a text that is too deep.
ghost use Rattle.std.specs.Prelude.{◌≡◌, ◌<◌, ◌≤◌, ◌^◌, ◌++◌, ◌∷◌, [], false, length, take, IfOk, IsTrue};
ghost use Rattle.syntax_faults.specs.Endings.{TokensFollow};
ghost use Rattle.syntax_places.specs.Beginnings.{IsLongest};
ghost use Rattle.syntax_places.specs.Depths.{IsFirstDeep, place_before, place_within};
ghost use Rattle.syntax_places.specs.Steps.{IsTaken};
ghost use Rattle.syntax_trees.specs.Faults.{begins_longer};
ghost use Rattle.syntax_trees.specs.Following.{at_entry};

use crate::beginnings::{ending, ending_of, follow_with, with_ending};
use crate::follower::Follower;
use crate::step::Taken;
use opam_names::OutOfMemory;
use std::alloc::Global;
use syntax_trees::{FILE_LIMIT, Step, Token, next_step};

/// Where the first bracket or prefix operator begins that is too deep, if there is one. So many bytes begin a file, at most.
pub fn first_deep(alloc: Global, bytes: &[u8], len: usize) -> Result<Option<usize>, OutOfMemory>
    requires limit { length bytes.now ≤ FILE_LIMIT }
    requires longest { IsLongest bytes.now len }
    ensures { IfOk result (IsFirstDeep bytes.now) }
{
    let front = &bytes[..len];
    if follow_with(alloc, front, b" ")? {
        let place = deep_with(alloc, front, b" ")?;
        return Ok(before_end(bytes, len, place));
    }
    match ending_of(alloc, front)? {
        None => Ok(None),
        Some(number) => {
            let place = deep_with(alloc, front, ending(number))?;
            Ok(before_last(len, place))
        }
    }
}

// The first one of the bytes with this ending.
fn deep_with(alloc: Global, bytes: &[u8], ending: &[u8]) -> Result<Option<usize>, OutOfMemory>
    requires limit { length bytes.now ≤ FILE_LIMIT }
    requires short { length ending.now ≤ 5 }
    requires follow { TokensFollow (at_entry false) (bytes.now ++ ending.now) }
    ensures { IfOk result (IsFirstDeep (bytes.now ++ ending.now)) }
{
    let whole = with_ending(alloc, bytes, ending)?;
    deep_in(alloc, &whole)
}

// The place, where it is one of the first bytes but the last; the last token among these is unfinished.
fn before_last(len: usize, place: Option<usize>) -> Option<usize>
    ensures { result ≡ place_before len place }
{
    match place {
        Some(at) if at < len && len - at > 1 => Some(at),
        _ => None,
    }
}

// The place, where it is one of the first bytes, and no comment or sign that is longer begins there.
fn before_end(bytes: &[u8], len: usize, place: Option<usize>) -> Option<usize>
    requires { len ≤ length bytes.now }
    ensures { result ≡ place_within bytes.now len place }
{
    match place {
        Some(at) if at < len && (len - at > 1 || !begins_longer(&bytes[at..])) => Some(at),
        _ => None,
    }
}

fn begins_longer(bytes: &[u8]) -> bool
    ensures { result ≡ begins_longer bytes.now }
{
    match bytes {
        [b'(', b'*', ..] | [b'!', b'=', ..] => true,
        _ => false,
    }
}

// The first one of a text that is all tokens which may follow one another.
fn deep_in(alloc: Global, text: &[u8]) -> Result<Option<usize>, OutOfMemory>
    requires limit { length text.now < 2 ^ 32 }
    requires follow { TokensFollow (at_entry false) text.now }
    ensures { IfOk result (IsFirstDeep text.now) }
{
    let mut follower = Follower::new(alloc);
    let mut at = 0;
    while at < text.len() {
        match next_step(alloc, &text[at..])? {
            Step::Skip(len) => at += len,
            Step::Take(token, len) => match take_next(follower, token)? {
                Taken::Follows(next) => {
                    follower = next;
                    at += len;
                }
                Taken::Deep => return Ok(Some(at)),
                Taken::Refused => return Ok(None),
            },
            Step::Stop => return Ok(None),
        }
    }
    Ok(None)
}

fn take_next(follower: Follower, token: Token) -> Result<Taken, OutOfMemory>
    ensures { IfOk result (IsTaken follower token) }
{
    follower.take(&token)
}

// How much of a text begins a file: one of a few endings makes of it tokens that may follow one another.
ghost use Rattle.std.specs.Prelude.{◌≡◌, ◌<◌, ◌≤◌, ◌^◌, ◌++◌, ◌↔◌, true, false, get_or, length, [], IfOk};
ghost use Rattle.syntax_faults.specs.Endings.{TokensFollow};
ghost use Rattle.syntax_places.specs.Beginnings.{IsBetween, IsEndingOf, IsLongest, IsNear, endings};
ghost use Rattle.syntax_places.specs.Controls.{Takes, control_of};
ghost use Rattle.syntax_trees.specs.Faults.{BeginsFile};
ghost use Rattle.syntax_trees.specs.Following.{at_entry, token_follows};

use crate::control::Control;
use opam_names::OutOfMemory;
use std::alloc::Global;
use syntax_trees::{FILE_LIMIT, Step, Token, next_step};

// How many endings there are.
const ENDINGS: usize = 17;

/// How many bytes begin a file, at most. The place is tried first; it decides how long that takes, and nothing else.
pub fn beginning_len(alloc: Global, bytes: &[u8], near: usize) -> Result<usize, OutOfMemory>
    requires { length bytes.now ≤ FILE_LIMIT }
    ensures { IfOk result (IsLongest bytes.now) }
{
    let start = begin_near(alloc, bytes, near)?;
    let mut low = start;
    while low < bytes.len() {
        let next = bytes.len().min(low + (low - start) + 1);
        if !begins_file(alloc, &bytes[..next])? {
            return between(alloc, bytes, low, next);
        }
        low = next;
    }
    Ok(low)
}

// The place, if the bytes up to it begin a file; else the start.
fn begin_near(alloc: Global, bytes: &[u8], near: usize) -> Result<usize, OutOfMemory>
    requires { length bytes.now ≤ FILE_LIMIT }
    ensures { IfOk result (IsNear bytes.now) }
{
    if near <= bytes.len() && begins_file(alloc, &bytes[..near])? {
        return Ok(near);
    }
    Ok(0)
}

// The bytes up to the one place begin a file, and up to the other they begin none.
fn between(alloc: Global, bytes: &[u8], begins: usize, stray: usize) -> Result<usize, OutOfMemory>
    requires limit { length bytes.now ≤ FILE_LIMIT }
    requires between { IsBetween bytes.now begins stray }
    ensures { IfOk result (IsLongest bytes.now) }
{
    let mut low = begins;
    let mut high = stray;
    while high - low > 1 {
        let middle = low + (high - low) / 2;
        if begins_file(alloc, &bytes[..middle])? {
            low = middle;
        } else {
            high = middle;
        }
    }
    Ok(low)
}

/// Whether bytes can be put after these such that the grammar derives the whole, at any depth and with doubled names too.
pub fn begins_file(alloc: Global, bytes: &[u8]) -> Result<bool, OutOfMemory>
    requires { length bytes.now ≤ FILE_LIMIT }
    ensures { IfOk result (λ begins. (begins ≡ true) ↔ BeginsFile bytes.now) }
{
    match ending_of(alloc, bytes)? {
        Some(_) => Ok(true),
        None => Ok(false),
    }
}

// Which ending makes of the bytes tokens that may follow one another; one does if they begin a file.
pub(crate) fn ending_of(alloc: Global, bytes: &[u8]) -> Result<Option<usize>, OutOfMemory>
    requires { length bytes.now ≤ FILE_LIMIT }
    ensures { IfOk result (IsEndingOf bytes.now) }
{
    let mut number = 0;
    while number < ENDINGS {
        if follow_with(alloc, bytes, ending(number))? {
            return Ok(Some(number));
        }
        number += 1;
    }
    Ok(None)
}

// What may end a comment, a bracket that begins one, a word, a sign or a text.
pub(crate) fn ending(number: usize) -> &'static [u8]
    requires { number < ENDINGS }
    ensures is { result.now ≡ get_or endings number [] }
    ensures short { length result.now ≤ 5 }
{
    match number {
        0 => b"",
        1 => b"x",
        2 => b"x:x",
        3 => b"**)",
        4 => b"=",
        5 => b"+",
        6 => b":",
        7 => b"\"",
        8 => b"\"\"",
        9 => b"0\"",
        10 => b"00\"",
        11 => b"\n\"",
        12 => b"\"\"\"",
        13 => b"\"\"\"\"",
        14 => b"0\"\"\"",
        15 => b"00\"\"\"",
        _ => b"\n\"\"\"",
    }
}

// Whether the bytes with this ending are tokens that may follow one another.
pub(crate) fn follow_with(alloc: Global, bytes: &[u8], ending: &[u8]) -> Result<bool, OutOfMemory>
    requires limit { length bytes.now ≤ FILE_LIMIT }
    requires short { length ending.now ≤ 5 }
    ensures { IfOk result (λ follow. (follow ≡ true) ↔ TokensFollow (at_entry false) (bytes.now ++ ending.now)) }
{
    let whole = with_ending(alloc, bytes, ending)?;
    tokens_follow(alloc, &whole)
}

// The bytes and this ending.
pub(crate) fn with_ending(
    alloc: Global,
    bytes: &[u8],
    ending: &[u8],
) -> Result<Vec<u8>, OutOfMemory>
    ensures { IfOk result (λ whole. whole.items ≡ bytes.now ++ ending.now) }
{
    let mut whole = Vec::new(alloc);
    whole.extend_from_slice(bytes)?;
    whole.extend_from_slice(ending)?;
    Ok(whole)
}

/// Whether the bytes are tokens that may follow one another from the start of a file on.
pub fn tokens_follow(alloc: Global, bytes: &[u8]) -> Result<bool, OutOfMemory>
    requires { length bytes.now < 2 ^ 32 }
    ensures { IfOk result (λ follow. (follow ≡ true) ↔ TokensFollow (at_entry false) bytes.now) }
{
    let mut control = Control::new(alloc);
    let mut at = 0;
    while at < bytes.len() {
        match next_step(alloc, &bytes[at..])? {
            Step::Skip(len) => at += len,
            Step::Take(token, len) => {
                if take_token(&mut control, token)? {
                    at += len;
                } else {
                    return Ok(false);
                }
            }
            Step::Stop => return Ok(false),
        }
    }
    Ok(true)
}

fn take_token(control: &mut Control, token: Token) -> Result<bool, OutOfMemory>
    ensures { IfOk result (Takes (token_follows (control_of control.old) token) (control_of control.new)) }
{
    control.take(&token)
}

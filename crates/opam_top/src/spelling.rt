// Texts between quotes, and canonical spellings.
ghost use Rattle.std.specs.Prelude.{◌≡◌, ◌+◌, ◌≤◌, ◌++◌, IfOk, OnOk, length, take, drop};
ghost use Rattle.std.specs.Option.{option_copied};
ghost use Rattle.opam_top.specs.Spellings.{after_quote, before_quote, in_quotes, is_spelled, quoted};

use opam_names::{Items, OutOfMemory};
use std::alloc::Global;

// The texts between quotes.
pub fn quoted_texts(alloc: Global, bytes: &[u8]) -> Result<Items<Items<u8>>, OutOfMemory>
    ensures { IfOk result (λ texts. texts ≡ quoted bytes.now) }
{
    let mut texts = Items::new(alloc);
    let mut rest = bytes;
    while let Some(after) = rest_after_quote(rest) {
        let (text, later) = text_and_rest(after);
        texts.push(Items::from_slice(alloc, text)?)?;
        rest = later;
    }
    Ok(texts)
}

// The bytes up to a quote, and those behind it.
fn text_and_rest(bytes: &[u8]) -> (&[u8], &[u8])
    ensures text { result.0.now ≡ take (before_quote bytes.now) bytes.now }
    ensures rest { result.1.now ≡ drop (before_quote bytes.now + 1) bytes.now }
{
    let end = bytes_before_quote(bytes);
    let (text, rest) = bytes.split_at(end);
    match rest {
        [] => (text, rest),
        [_, later @ ..] => (text, later),
    }
}

fn rest_after_quote(bytes: &[u8]) -> Option<&[u8]>
    ensures { option_copied result ≡ after_quote bytes.now }
{
    let mut rest = bytes;
    while let [first, more @ ..] = rest {
        if *first == b'"' {
            return Some(more);
        }
        rest = more;
    }
    None
}

fn bytes_before_quote(bytes: &[u8]) -> usize
    ensures value { result ≡ before_quote bytes.now }
    ensures within { result ≤ length bytes.now }
{
    for (place, byte) in bytes.iter().enumerate() {
        if *byte == b'"' {
            return place;
        }
    }
    bytes.len()
}

// Whether the bytes are this text, whose last newline may be missing.
pub fn is_spelling(bytes: &[u8], text: &[u8]) -> bool
    ensures { result ≡ is_spelled bytes.now text.now }
{
    let mut left = bytes;
    let mut other = text;
    while let [x, more @ ..] = left {
        match other {
            [y, rest @ ..] if x == y => {
                left = more;
                other = rest;
            }
            _ => return false,
        }
    }
    match other {
        [] => true,
        [last] => *last == b'\n',
        _ => false,
    }
}

// Writes a text without escapes between quotes.
pub fn push_in_quotes(text: &mut Vec<u8>, word: &[u8]) -> Result<(), OutOfMemory>
    ensures { OnOk result (text.new.items ≡ text.old.items ++ in_quotes word.now) }
{
    text.extend_from_slice(b"\"")?;
    text.extend_from_slice(word)?;
    text.extend_from_slice(b"\"")?;
    Ok(())
}

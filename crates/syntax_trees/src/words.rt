// Words: where one ends, and which token it is.
ghost use Rattle.std.specs.Prelude.{◌≡◌, ◌^◌, ◌==◌, ◌&&◌, ◌≤◌, true, false, length, nat_le, take, if◌then◌else◌, IfNone, IfOk, IfSome, OnSome};
ghost use Rattle.std.specs.List.{list_all, list_any, slice_split};
ghost use Rattle.std.specs.Str.{IsAscii};
ghost use Rattle.opam_names.specs.Names.{is_letter, is_digit};
ghost use Rattle.opam_names.specs.Orders.{number};
ghost use Rattle.syntax_trees.specs.Lexed.{is_colon, is_plus, small_number};
ghost use Rattle.syntax_trees.specs.Words.{is_word_byte, begins_word, joins, word_of, are_digits, natural_of, negative_of, int_of, before, after, is_scope_part, scope_parts, is_plain, identifier_of, word_token};

use crate::Word;
use crate::token::Token;
use opam_names::OutOfMemory;
use std::alloc::Global;

pub(crate) fn is_word_byte(byte: u8) -> bool
    ensures { result ≡ is_word_byte byte }
{
    is_letter(byte) || is_digit(byte) || byte == b'_' || byte == b'-'
}

fn is_letter(byte: u8) -> bool
    ensures { result ≡ is_letter byte }
{
    (b'A' <= byte && byte <= b'Z') || (b'a' <= byte && byte <= b'z')
}

pub(crate) fn is_digit(byte: u8) -> bool
    ensures { result ≡ is_digit byte }
{
    b'0' <= byte && byte <= b'9'
}

fn begins_word(bytes: &[u8]) -> bool
    ensures { result ≡ begins_word bytes.now }
{
    match bytes {
        [byte, ..] => is_word_byte(*byte),
        [] => false,
    }
}

fn joins(byte: u8, bytes: &[u8]) -> bool
    ensures { result ≡ joins byte bytes.now }
{
    (byte == b'+' || byte == b':') && begins_word(bytes)
}

// How many bytes the word has that stands first.
pub(crate) fn word_len(bytes: &[u8]) -> usize
    ensures word { take result bytes.now ≡ word_of true bytes.now }
    ensures length { result ≡ length (word_of true bytes.now) }
    ensures within { result ≤ length bytes.now }
{
    let mut joining = true;
    for (at, byte) in bytes.iter().enumerate() {
        if !is_word_byte(*byte) {
            if !joining || !joins(*byte, &bytes[at + 1..]) {
                return at;
            }
            joining = *byte != b':';
        }
    }
    bytes.len()
}

// The token that a word is.
pub(crate) fn word_token(alloc: Global, word: &[u8]) -> Result<Option<Token>, OutOfMemory>
    requires { IsAscii word.now }
    ensures { IfOk result (λ token. token ≡ word_token word.now) }
{
    if word == b"true".as_slice() {
        Ok(Some(Token::Flag(true)))
    } else if word == b"false".as_slice() {
        Ok(Some(Token::Flag(false)))
    } else {
        match int_of(word) {
            Some(number) => Ok(Some(Token::Int(number))),
            None => identifier_of(alloc, word),
        }
    }
}

fn int_of(word: &[u8]) -> Option<i64>
    ensures { result ≡ int_of word.now }
{
    match word {
        [b'-', digits @ ..] => negative_of(digits),
        _ => natural_of(word),
    }
}

fn natural_of(digits: &[u8]) -> Option<i64>
    ensures { result ≡ natural_of digits.now }
{
    match small_number(digits) {
        Some(number) if number < 1 << 63 => Some(number as i64),
        _ => None,
    }
}

fn negative_of(digits: &[u8]) -> Option<i64>
    ensures { result ≡ negative_of digits.now }
{
    match small_number(digits) {
        Some(number) if number < 1 << 63 => Some(-(number as i64)),
        Some(_) => Some(i64::MIN),
        None => None,
    }
}

// The number that digits write, where it is at most 2^63.
fn small_number(digits: &[u8]) -> Option<u64>
    ensures { result ≡ small_number digits.now }
{
    let mut number: u64 = 0;
    for digit in digits {
        if !is_digit(*digit) {
            return None;
        }
        if number > (1 << 63) / 10 {
            return None;
        }
        number = number * 10 + u64::from(*digit - b'0');
    }
    if digits.is_empty() || number > 1 << 63 {
        return None;
    }
    Some(number)
}

fn identifier_of(alloc: Global, word: &[u8]) -> Result<Option<Token>, OutOfMemory>
    requires { IsAscii word.now }
    ensures { IfOk result (λ token. token ≡ identifier_of word.now) }
{
    if is_plain(word) {
        return Ok(Some(Token::Plain(make_word(alloc, word)?)));
    }
    match scope_and_name(word) {
        Some((scope, name)) if are_scope_parts(scope) && has_letter(name) => Ok(Some(Token::Scoped(
            make_word(alloc, scope)?,
            make_word(alloc, name)?,
        ))),
        _ => Ok(None),
    }
}

// What stands before and after the first colon, where there is one.
fn scope_and_name(word: &[u8]) -> Option<(&[u8], &[u8])>
    requires { IsAscii word.now }
    ensures none { IfNone result (list_any is_colon word.now ≡ false) }
    ensures some { OnSome result (list_any is_colon word.now ≡ true) }
    ensures scope { IfSome result (λ parts. parts.0.now ≡ before 58 word.now) }
    ensures name { IfSome result (λ parts. parts.1.now ≡ after 58 word.now) }
    ensures ascii_scope { IfSome result (λ parts. IsAscii parts.0.now) }
    ensures ascii_name { IfSome result (λ parts. IsAscii parts.1.now) }
{
    for (at, byte) in word.iter().enumerate() {
        if *byte == b':' {
            return Some((&word[..at], &word[at + 1..]));
        }
    }
    None
}

fn is_plain(word: &[u8]) -> bool
    ensures { result ≡ is_plain word.now }
{
    are_word_bytes(word) && has_letter(word)
}

fn are_word_bytes(word: &[u8]) -> bool
    ensures { result ≡ list_all is_word_byte word.now }
{
    word.iter().all(|byte| is_word_byte(*byte))
}

fn has_letter(word: &[u8]) -> bool
    ensures { result ≡ list_any is_letter word.now }
{
    word.iter().any(|byte| is_letter(*byte))
}

fn are_scope_parts(scope: &[u8]) -> bool
    ensures { result ≡ list_all is_scope_part (scope_parts scope.now) }
{
    are_cut_parts(scope)
}

fn are_cut_parts(scope: &[u8]) -> bool
    ensures { result ≡ list_all is_scope_part (slice_split is_plus scope.now) }
{
    scope
        .split(|byte| *byte == b'+')
        .all(|part| is_scope_part(part))
}

fn is_scope_part(part: &[u8]) -> bool
    ensures { result ≡ is_scope_part part.now }
{
    has_letter(part) || part == b"_".as_slice()
}

fn make_word(alloc: Global, bytes: &[u8]) -> Result<Word, OutOfMemory>
    requires { IsAscii bytes.now }
    ensures { IfOk result (λ word. word ≡ bytes.now) }
{
    let Ok(text) = str::from_utf8(bytes) else {
        unreachable!()
    };
    Ok(Word::from_string(String::from_str(alloc, text)?))
}

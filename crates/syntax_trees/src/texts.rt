// Texts between quotes, and their escapes.
ghost use Rattle.std.specs.Prelude.{◌≡◌, ◌<◌, ◌≤◌, ◌^◌, ℕ, List, [], ◌∷◌, ◌++◌, drop, length, option_to_list, true, IfOk, OnOk};
ghost use Rattle.syntax_trees.specs.Signs.{begins_with};
ghost use Rattle.syntax_trees.specs.Lexed.{given, IsPartOf, IsTextAt, piece_of};
ghost use Rattle.syntax_trees.specs.Texts.{after_spaces, decimal, escape, hexadecimal, hexadecimal_value, is_hexadecimal, piece, quote, simple, simple_escapes};
ghost use Rattle.opam_names.specs.Names.{is_digit};

use crate::words::is_digit;
use opam_names::OutOfMemory;
use sqlite_items::Items;
use std::alloc::Global;

/// What stands first inside a text, and how many bytes spell it.
#[derive(Clone, Copy, Debug)]
pub(crate) enum TextPart {
    /// The closing quotes.
    Closing(usize),
    /// A byte of the text; none where a line is joined to the next.
    Standing(Option<u8>, usize),
    /// Nothing that a text may have.
    Unknown,
}

/// A text, and how many bytes spell it after its opening quotes.
#[derive(Drop)]
pub(crate) struct ReadText {
    pub text: Items<u8>,
    pub len: usize,
}

/// The text whose opening quotes stand before these bytes.
pub(crate) fn read_text(
    alloc: Global,
    bytes: &[u8],
    long: bool,
) -> Result<Option<ReadText>, OutOfMemory>
    requires { length bytes.now < 2 ^ 32 }
    ensures { IfOk result (λ read. IsTextAt long bytes.now read) }
{
    let mut text = Vec::new(alloc);
    let mut at = 0;
    while at < bytes.len() {
        match text_part(&bytes[at..], long) {
            TextPart::Closing(len) => {
                return Ok(Some(ReadText {
                    text: Items::from_vec(text),
                    len: at + len,
                }));
            }
            TextPart::Standing(byte, len) => {
                push_given(&mut text, byte)?;
                at += len;
            }
            TextPart::Unknown => return Ok(None),
        }
    }
    Ok(None)
}

fn push_given(text: &mut Vec<u8>, byte: Option<u8>) -> Result<(), OutOfMemory>
    ensures { OnOk result (text.new.items ≡ text.old.items ++ option_to_list byte) }
{
    if let Some(byte) = byte {
        text.push(byte)?;
    }
    Ok(())
}

fn text_part(bytes: &[u8], long: bool) -> TextPart
    requires { 0 < length bytes.now }
    ensures part { piece_of bytes.now result ≡ piece long bytes.now }
    ensures within { IsPartOf bytes.now result }
{
    match bytes[0] {
        b'\\' => escape(bytes),
        b'"' => quote(bytes, long),
        byte => TextPart::Standing(Some(byte), 1),
    }
}

// The bytes begin with a quote.
fn quote(bytes: &[u8], long: bool) -> TextPart
    requires { 0 < length bytes.now }
    ensures part { piece_of bytes.now result ≡ quote long (drop 1 bytes.now) }
    ensures within { IsPartOf bytes.now result }
{
    if !long {
        TextPart::Closing(1)
    } else if two_quotes_follow(bytes) {
        TextPart::Closing(3)
    } else {
        TextPart::Standing(Some(b'"'), 1)
    }
}

// The bytes begin with a backslash.
fn escape(bytes: &[u8]) -> TextPart
    requires { 0 < length bytes.now }
    ensures part { piece_of bytes.now result ≡ escape (drop 1 bytes.now) }
    ensures within { IsPartOf bytes.now result }
{
    if bytes.len() < 2 {
        return TextPart::Unknown;
    }
    match bytes[1] {
        b'0'..=b'9' => decimal(bytes),
        b'x' => hexadecimal(bytes),
        b'\n' => TextPart::Standing(None, 2 + spaces_len(&bytes[2..])),
        b'\r' if begins_at(bytes, 2, b'\n') => {
            TextPart::Standing(None, 3 + spaces_len(&bytes[3..]))
        }
        byte => match simple_escape(byte) {
            Some(meant) => TextPart::Standing(Some(meant), 2),
            None => TextPart::Unknown,
        },
    }
}

// What a backslash and this byte stand for, where that is one byte.
fn simple_escape(byte: u8) -> Option<u8>
    ensures { (bytes : List ℕ) → simple simple_escapes byte bytes ≡ given result bytes }
{
    match byte {
        b'\\' | b'"' | b'\'' | b' ' => Some(byte),
        b'n' => Some(b'\n'),
        b't' => Some(b'\t'),
        b'r' => Some(b'\r'),
        b'b' => Some(8),
        _ => None,
    }
}

// A backslash and three digits.
fn decimal(bytes: &[u8]) -> TextPart
    ensures part { piece_of bytes.now result ≡ decimal (drop 1 bytes.now) }
    ensures within { IsPartOf bytes.now result }
{
    let [_, a, b, c, ..] = bytes else {
        return TextPart::Unknown;
    };
    if !is_digit(*a) || !is_digit(*b) || !is_digit(*c) {
        return TextPart::Unknown;
    }
    let value = 100 * u32::from(*a - b'0') + 10 * u32::from(*b - b'0') + u32::from(*c - b'0');
    if value > 255 {
        return TextPart::Unknown;
    }
    TextPart::Standing(Some(value as u8), 4)
}

// A backslash, an `x` and two hexadecimal digits.
fn hexadecimal(bytes: &[u8]) -> TextPart
    ensures part { piece_of bytes.now result ≡ hexadecimal (drop 2 bytes.now) }
    ensures within { IsPartOf bytes.now result }
{
    let [_, _, a, b, ..] = bytes else {
        return TextPart::Unknown;
    };
    if !is_hexadecimal(*a) || !is_hexadecimal(*b) {
        return TextPart::Unknown;
    }
    TextPart::Standing(Some(16 * hexadecimal_value(*a) + hexadecimal_value(*b)), 4)
}

fn is_hexadecimal(byte: u8) -> bool
    ensures { result ≡ is_hexadecimal byte }
{
    is_digit(byte) || (b'A' <= byte && byte <= b'F') || (b'a' <= byte && byte <= b'f')
}

fn hexadecimal_value(byte: u8) -> u8
    requires { is_hexadecimal byte ≡ true }
    ensures value { result ≡ hexadecimal_value byte }
    ensures digit { result < 16 }
{
    if byte <= b'9' {
        byte - b'0'
    } else if byte <= b'F' {
        byte - b'A' + 10
    } else {
        byte - b'a' + 10
    }
}

// How many spaces and tabs stand first.
fn spaces_len(bytes: &[u8]) -> usize
    ensures after { drop result bytes.now ≡ after_spaces bytes.now }
    ensures within { result ≤ length bytes.now }
{
    for (at, byte) in bytes.iter().enumerate() {
        if *byte != b' ' && *byte != b'\t' {
            return at;
        }
    }
    bytes.len()
}

/// Whether two quotes stand after the first byte.
pub(crate) fn two_quotes_follow(bytes: &[u8]) -> bool
    ensures { result ≡ begins_with (34 ∷ 34 ∷ []) (drop 1 bytes.now) }
{
    begins_at(bytes, 1, b'"') && begins_at(bytes, 2, b'"')
}

/// Whether this byte stands at the place.
pub(crate) fn begins_at(bytes: &[u8], at: usize, byte: u8) -> bool
    ensures { result ≡ begins_with (byte ∷ []) (drop at bytes.now) }
{
    at < bytes.len() && bytes[at] == byte
}

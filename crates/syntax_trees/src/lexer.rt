// The tokens of a text, from its first byte to its last.
ghost use Rattle.std.specs.Prelude.{◌≡◌, ◌≢◌, ◌<◌, ◌≤◌, ◌+◌, ◌^◌, drop, length, false, true, slice_index, IfOk};
ghost use Rattle.syntax_trees.specs.Lexed.{HasTokens, IsFirst, IsWithin, step_first};
ghost use Rattle.syntax_trees.specs.Read.{placed_of};
ghost use Rattle.syntax_trees.specs.Signs.{sign_among, signs};
ghost use Rattle.syntax_trees.specs.Tokens.{Quote, after_comment, first, placed, sign_first};
ghost use Rattle.syntax_trees.specs.Words.{is_word_byte};

use crate::Span;
use crate::gaps::{comment_len, is_blank, line_len};
use crate::limits::FILE_LIMIT;
use crate::signs::{long_sign, short_sign};
use crate::texts::{begins_at, read_text, two_quotes_follow};
use crate::token::{PlacedToken, Token};
use crate::words::{is_word_byte, word_len, word_token};
use opam_names::OutOfMemory;
use std::alloc::Global;

/// The tokens of a text up to its end, or up to the first that is none.
#[derive(Drop)]
pub struct Scanned {
    pub tokens: Vec<PlacedToken>,
    pub end: ScanEnd,
}

/// Whether all of a text was read.
#[derive(Clone, Copy, Debug)]
pub enum ScanEnd {
    Whole,
    /// What begins at this byte is no token.
    Bad { start: u32 },
}

/// What stands first, and how many bytes it has.
#[derive(Drop)]
pub enum Step {
    /// A blank or a comment.
    Skip(usize),
    Take(Token, usize),
    /// No token, and no comment that ends.
    Stop,
}

/// The tokens of the bytes.
pub fn scan(alloc: Global, bytes: &[u8]) -> Result<Scanned, OutOfMemory>
    requires { length bytes.now ≤ FILE_LIMIT }
    ensures { IfOk result (λ scan. HasTokens bytes.now scan.tokens.items scan.end) }
{
    let mut tokens = Vec::new(alloc);
    let mut at = 0;
    while at < bytes.len() {
        match next_step(alloc, &bytes[at..])? {
            Step::Skip(len) => at += len,
            Step::Take(token, len) => {
                tokens.push(place_token(token, at, len))?;
                at += len;
            }
            Step::Stop => {
                let end = ScanEnd::Bad { start: at as u32 };
                return Ok(Scanned { tokens, end });
            }
        }
    }
    let end = ScanEnd::Whole;
    Ok(Scanned { tokens, end })
}

fn place_token(token: Token, at: usize, len: usize) -> PlacedToken
    requires { at + len < 2 ^ 32 }
    ensures { placed_of result ≡ placed token (record { start = at; end = at + len }) }
{
    let span = Span {
        start: at as u32,
        end: (at + len) as u32,
    };
    PlacedToken { token, span }
}

/// What stands first in the bytes, of which there are some.
pub fn next_step(alloc: Global, bytes: &[u8]) -> Result<Step, OutOfMemory>
    requires some { 0 < length bytes.now }
    requires limit { length bytes.now < 2 ^ 32 }
    ensures found { IfOk result (λ step. IsFirst bytes.now step) }
    ensures within { IfOk result (λ step. IsWithin bytes.now step) }
{
    let byte = bytes[0];
    if byte == b'"' {
        return text_step(alloc, bytes);
    }
    if is_word_byte(byte) {
        return word_step(alloc, bytes);
    }
    Ok(plain_step(bytes))
}

// Neither a text nor a word stands first.
fn plain_step(bytes: &[u8]) -> Step
    requires some { 0 < length bytes.now }
    requires no_text { slice_index bytes.now 0 ≢ 34 }
    requires no_word { is_word_byte (slice_index bytes.now 0) ≡ false }
    ensures found { first bytes.now ≡ step_first bytes.now result }
    ensures within { IsWithin bytes.now result }
{
    if is_blank(bytes[0]) {
        Step::Skip(1)
    } else if bytes[0] == b'#' {
        Step::Skip(1 + line_len(&bytes[1..]))
    } else if bytes[0] == b'(' && begins_at(bytes, 1, b'*') {
        comment_step(bytes)
    } else {
        sign_step(bytes)
    }
}

// The bytes begin with `(*`.
fn comment_step(bytes: &[u8]) -> Step
    requires { 2 ≤ length bytes.now }
    ensures found { step_first bytes.now result ≡ after_comment (drop 2 bytes.now) }
    ensures within { IsWithin bytes.now result }
{
    match comment_len(&bytes[2..]) {
        Some(len) => Step::Skip(2 + len),
        None => Step::Stop,
    }
}

fn sign_step(bytes: &[u8]) -> Step
    requires { 0 < length bytes.now }
    ensures found { step_first bytes.now result ≡ sign_first (sign_among signs bytes.now) }
    ensures within { IsWithin bytes.now result }
{
    if bytes.len() > 1 {
        if let Some(token) = long_sign(bytes[0], bytes[1]) {
            return Step::Take(token, 2);
        }
    }
    match short_sign(bytes[0]) {
        Some(token) => Step::Take(token, 1),
        None => Step::Stop,
    }
}

// A byte of a word stands first.
fn word_step(alloc: Global, bytes: &[u8]) -> Result<Step, OutOfMemory>
    requires some { 0 < length bytes.now }
    requires word { is_word_byte (slice_index bytes.now 0) ≡ true }
    ensures found { IfOk result (λ step. first bytes.now ≡ step_first bytes.now step) }
    ensures within { IfOk result (λ step. IsWithin bytes.now step) }
{
    let len = word_len(bytes);
    match word_token(alloc, &bytes[..len])? {
        Some(token) => Ok(Step::Take(token, len)),
        None => Ok(Step::Stop),
    }
}

// A quote stands first; three of them open a long text.
fn text_step(alloc: Global, bytes: &[u8]) -> Result<Step, OutOfMemory>
    requires some { 0 < length bytes.now }
    requires quote { slice_index bytes.now 0 ≡ 34 }
    requires limit { length bytes.now < 2 ^ 32 }
    ensures found { IfOk result (λ step. IsFirst bytes.now step) }
    ensures within { IfOk result (λ step. IsWithin bytes.now step) }
{
    if two_quotes_follow(bytes) {
        quoted_step(alloc, bytes, true, 3)
    } else {
        quoted_step(alloc, bytes, false, 1)
    }
}

// So many quotes open a text.
fn quoted_step(alloc: Global, bytes: &[u8], long: bool, opening: usize) -> Result<Step, OutOfMemory>
    requires some { 0 < opening }
    requires within { opening ≤ length bytes.now }
    requires limit { length bytes.now < 2 ^ 32 }
    requires quote { first bytes.now ≡ Quote long (drop opening bytes.now) }
    ensures found { IfOk result (λ step. IsFirst bytes.now step) }
    ensures within { IfOk result (λ step. IsWithin bytes.now step) }
{
    match read_text(alloc, &bytes[opening..], long)? {
        Some(read) => Ok(Step::Take(Token::Text(read.text), opening + read.len)),
        None => Ok(Step::Stop),
    }
}

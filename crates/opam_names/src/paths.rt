// Paths below a folder.
ghost use Rattle.std.specs.Prelude.{◌≡◌, ◌<◌, ◌≤◌, ◌^◌, ◌↔◌, true, IfOk, IfErr, IfSome, IsTrue, [], ◌∷◌, ◌++◌, length, string_bytes};
ghost use Rattle.std.specs.List.{list_all, position};
ghost use Rattle.std.specs.Str.{IsUtf8, IsValidUpTo, bytes_eq, is_utf8};
ghost use Rattle.std.proofs.Common.{rules};
ghost use Rattle.std.specs.Cmp.{partial_order_from_own_ties};
ghost use Rattle.std.specs.Cmp.Lexicographic.{slice_cmp};
ghost use Rattle.std.specs.Cmp.Rules.{comparing};
ghost use Rattle.std.specs.Ordering.{as_partial_cmp, nat_cmp};
ghost use Rattle.opam_names.specs.Faults.{Begins, IsFaultOf, IsLongestBegin};
ghost use Rattle.opam_names.specs.Paths.{IsPath, IsRelative, IsJoinFault, is_above, is_relative, is_relative_path, is_not_zero, is_part, is_plain_path, is_slash, joined, parts};

use crate::cut::missing;
use crate::limits::PATH_LIMIT;
use crate::{OutOfMemory, ReadFault};
use std::alloc::Global;
use std::cmp::Ordering;
use std::marker::Model;

/// A path below a folder: text without a zero byte, 1 to [`PATH_LIMIT`] bytes, of parts joined by `/`, none of them empty, `.`
/// or `..`.
#[derive(Drop)]
pub struct RelPath {
    inner: String,
}

impl Model for RelPath {
    ghost use Rattle.std.specs.Prelude.{ℕ, List, string_bytes};
    ghost use Rattle.std.specs.Coded.{coded_list, coded_ℕ};
    ghost use Rattle.opam_names.specs.Paths.{IsRelative};

    ghost Value = { List ℕ };

    ghost coded = { coded_list coded_ℕ };

    ghost view = { λ p. string_bytes p.inner };

    ghost invariant = { λ p. IsRelative (string_bytes p.inner) };
}

impl RelPath {
    /// Whether the bytes are a path below a folder.
    pub fn is_path(bytes: &[u8]) -> bool
        ensures value { result ≡ is_relative_path bytes.now }
        ensures valid { IsTrue result ↔ IsPath bytes.now }
    {
        is_text(bytes) && is_relative(bytes)
    }

    pub fn read(alloc: Global, bytes: &[u8]) -> Result<RelPath, ReadFault>
        requires { length bytes.now < 2 ^ 32 }
        ensures ok { IfOk result (λ path. path ≡ bytes.now) }
        ensures valid { IfOk result (λ path. IsPath path) }
        ensures err { IfErr result (λ fault. IsFaultOf IsPath bytes.now fault) }
    {
        let Ok(text) = str::from_utf8(bytes) else {
            return Err(ReadFault::Bad {
                at: path_end(bytes) as u32,
            });
        };
        if !is_relative(bytes) {
            return Err(ReadFault::Bad {
                at: path_end(bytes) as u32,
            });
        }
        Ok(RelPath {
            inner: String::from_str(alloc, text)?,
        })
    }

    /// A path that is known when the program is written.
    pub fn fixed(alloc: Global, text: &str) -> Result<RelPath, OutOfMemory>
        requires { IsTrue (is_plain_path text.now) }
        ensures { IfOk result (λ path. path ≡ text.now) }
    {
        Ok(RelPath {
            inner: String::from_str(alloc, text)?,
        })
    }

    /// The path of what stands below this one under that path. `Bad` at [`PATH_LIMIT`] exactly where it is
    /// longer than that.
    pub fn join(&self, alloc: Global, below: &RelPath) -> Result<RelPath, ReadFault>
        ensures ok { IfOk result (λ path. path ≡ joined self.now below.now) }
        ensures err { IfErr result (λ fault. IsJoinFault (joined self.now below.now) fault) }
    {
        if self.inner.len() + below.inner.len() >= PATH_LIMIT {
            return Err(ReadFault::Bad {
                at: PATH_LIMIT as u32,
            });
        }
        Ok(RelPath {
            inner: joined_text(alloc, self.inner.as_str(), below.inner.as_str())?,
        })
    }

    pub fn as_str(&self) -> &str
        ensures value { result.now ≡ self.now }
        ensures valid { IsPath self.now }
    {
        self.inner.as_str()
    }

    pub fn copy(&self, alloc: Global) -> Result<RelPath, OutOfMemory>
        ensures { IfOk result (λ path. path ≡ self.now) }
    {
        Ok(RelPath {
            inner: String::from_str(alloc, self.inner.as_str())?,
        })
    }

    /// Whether the other is this path, a `/` and more.
    pub fn above(&self, other: &RelPath) -> bool
        ensures { result ≡ is_above self.now other.now }
    {
        stands_above(self.inner.as_bytes(), other.inner.as_bytes())
    }
}

// Paths stand in the order of their bytes.
impl PartialEq for RelPath {
    ghost eq = { bytes_eq };

    ghost laws = { Prim.search (comparing, rules) };

    fn eq(&self, other: &RelPath) -> bool {
        self.inner.as_str() == other.inner.as_str()
    }
}

impl Eq for RelPath {
    ghost laws = { Prim.search (comparing, rules) };
}

impl Ord for RelPath {
    ghost cmp = { slice_cmp nat_cmp };

    ghost total = { Prim.search (comparing, rules) };

    ghost matches_partial_cmp = { Prim.search (comparing, rules) };

    ghost matches_eq = { Prim.search (comparing, rules) };

    fn cmp(&self, other: &RelPath) -> Ordering {
        self.inner.as_str().cmp(other.inner.as_str())
    }
}

impl PartialOrd for RelPath {
    ghost partial_cmp = { as_partial_cmp (slice_cmp nat_cmp) };

    ghost laws = { partial_order_from_own_ties (Prim.search (comparing, rules)) (Prim.search (comparing, rules)) };

    fn partial_cmp(&self, other: &RelPath) -> Option<Ordering> {
        Some(self.cmp(other))
    }
}

fn is_text(bytes: &[u8]) -> bool
    ensures value { result ≡ is_utf8 bytes.now }
    ensures valid { IsTrue result ↔ IsUtf8 bytes.now }
{
    str::from_utf8(bytes).is_ok()
}

fn joined_text(alloc: Global, folder: &str, below: &str) -> Result<String, OutOfMemory>
    ensures { IfOk result (λ text. string_bytes text ≡ joined folder.now below.now) }
{
    let mut text = String::from_str(alloc, folder)?;
    text.push_str("/")?;
    text.push_str(below)?;
    Ok(text)
}

fn stands_above(above: &[u8], below: &[u8]) -> bool
    ensures { result ≡ is_above above.now below.now }
{
    let mut left = above;
    let mut other = below;
    while let [x, more @ ..] = left {
        match other {
            [y, rest @ ..] if x == y => {
                left = more;
                other = rest;
            }
            _ => return false,
        }
    }
    match other {
        [first, _, ..] => *first == b'/',
        _ => false,
    }
}

fn is_good_part(part: &[u8]) -> bool
    ensures { result ≡ is_part part.now }
{
    !part.is_empty() && part != b".".as_slice() && part != b"..".as_slice()
}

fn first_slash(bytes: &[u8]) -> Option<usize>
    ensures value { result ≡ position is_slash bytes.now }
    ensures within { IfSome result (λ n. n < length bytes.now) }
{
    bytes.iter().position(|b| *b == b'/')
}

fn has_good_parts(bytes: &[u8]) -> bool
    requires { length bytes.now ≤ PATH_LIMIT }
    ensures { result ≡ list_all is_part (parts bytes.now) }
{
    let mut rest = bytes;
    while let Some(slash) = first_slash(rest) {
        if !is_good_part(&rest[..slash]) {
            return false;
        }
        rest = &rest[slash + 1..];
    }
    is_good_part(rest)
}

fn has_no_zero(bytes: &[u8]) -> bool
    ensures { result ≡ list_all is_not_zero bytes.now }
{
    bytes.iter().all(|b| *b != 0)
}

fn is_relative(bytes: &[u8]) -> bool
    ensures value { result ≡ is_relative bytes.now }
    ensures valid { IsTrue result ↔ IsRelative bytes.now }
{
    bytes.len() <= PATH_LIMIT && has_no_zero(bytes) && has_good_parts(bytes)
}

// Whether the parts are good, but for the last one, which more bytes can make good.
fn has_good_ends(front: &[u8]) -> bool
    requires { length front.now ≤ PATH_LIMIT }
    ensures { result ≡ list_all is_part (parts (front.now ++ 97 ∷ [])) }
{
    let mut rest = front;
    while let Some(slash) = first_slash(rest) {
        if !is_good_part(&rest[..slash]) {
            return false;
        }
        rest = &rest[slash + 1..];
    }
    true
}

// Whether text with good ends begins a path.
fn text_begins(front: &[u8]) -> bool
    requires text { IsUtf8 front.now }
    requires no_zero { list_all is_not_zero front.now ≡ true }
    requires ends { list_all is_part (parts (front.now ++ 97 ∷ [])) ≡ true }
    requires short { length front.now ≤ PATH_LIMIT }
    ensures { IsTrue result ↔ Begins IsPath front.now }
{
    if front.len() < PATH_LIMIT {
        return true;
    }
    has_good_parts(front)
}

// The same of bytes with good ends whose last character is not whole.
fn cut_begins(front: &[u8], whole: usize) -> bool
    requires valid { IsValidUpTo front.now whole }
    requires no_zero { list_all is_not_zero front.now ≡ true }
    requires ends { list_all is_part (parts (front.now ++ 97 ∷ [])) ≡ true }
    requires short { length front.now ≤ PATH_LIMIT }
    ensures { IsTrue result ↔ Begins IsPath front.now }
{
    match missing(&front[whole..]) {
        Some(rest) => rest <= PATH_LIMIT - front.len(),
        None => false,
    }
}

fn begins_path(front: &[u8]) -> bool
    ensures { IsTrue result ↔ Begins IsPath front.now }
{
    if front.len() > PATH_LIMIT {
        return false;
    }
    if !has_no_zero(front) {
        return false;
    }
    if !has_good_ends(front) {
        return false;
    }
    match str::from_utf8(front) {
        Ok(_) => text_begins(front),
        Err(fault) => cut_begins(front, fault.valid_up_to()),
    }
}

// The length of the longest front that begins a path, found by halves: each front of one that does also does.
fn path_end(bytes: &[u8]) -> usize
    ensures { IsLongestBegin IsPath bytes.now result }
{
    let mut least = 0;
    let mut most = bytes.len();
    while least < most {
        let middle = most - (most - least) / 2;
        if begins_path(&bytes[..middle]) {
            least = middle;
        } else {
            most = middle - 1;
        }
    }
    least
}

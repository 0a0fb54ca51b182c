// Names of packages.
ghost use Rattle.std.specs.Prelude.{◌≡◌, ◌<◌, ◌^◌, ◌==◌, ◌↔◌, IfOk, IfErr, IsTrue, length, string_bytes};
ghost use Rattle.std.specs.List.{list_all, list_any, take_while};
ghost use Rattle.std.proofs.Common.{rules};
ghost use Rattle.std.specs.Cmp.{partial_order_from_own_ties};
ghost use Rattle.std.specs.Cmp.Lexicographic.{slice_cmp};
ghost use Rattle.std.specs.Cmp.Rules.{comparing};
ghost use Rattle.std.specs.Ordering.{as_partial_cmp, nat_cmp};
ghost use Rattle.std.specs.Str.{bytes_eq};
ghost use Rattle.opam_names.specs.Names.{IsName, is_letter, is_name, is_name_byte};
ghost use Rattle.opam_names.specs.Faults.{IsFaultOf, IsLongestBegin};

use crate::limits::NAME_LIMIT;
use crate::{OutOfMemory, ReadFault};
use std::alloc::Global;
use std::cmp::Ordering;
use std::marker::Model;

/// The name of a package: letters, digits, `-`, `_` and `+`, at least one letter, at most [`NAME_LIMIT`] bytes
/// (opam manual, file format: package names).
#[derive(Drop)]
pub struct Name {
    inner: String,
}

impl Model for Name {
    ghost use Rattle.std.specs.Prelude.{ℕ, List, string_bytes};
    ghost use Rattle.std.specs.Coded.{coded_list, coded_ℕ};
    ghost use Rattle.opam_names.specs.Names.{IsName};

    ghost Value = { List ℕ };

    ghost coded = { coded_list coded_ℕ };

    ghost view = { λ n. string_bytes n.inner };

    ghost invariant = { λ n. IsName (string_bytes n.inner) };
}

impl Name {
    /// Whether the bytes are the name of a package.
    pub fn is_name(bytes: &[u8]) -> bool
        ensures value { result ≡ is_name bytes.now }
        ensures valid { IsTrue result ↔ IsName bytes.now }
    {
        all_name_bytes(bytes) && has_letter(bytes) && bytes.len() <= NAME_LIMIT
    }

    pub fn read(alloc: Global, bytes: &[u8]) -> Result<Name, ReadFault>
        requires { length bytes.now < 2 ^ 32 }
        ensures ok { IfOk result (λ name. name ≡ bytes.now) }
        ensures valid { IfOk result (λ name. IsName name) }
        ensures err { IfErr result (λ fault. IsFaultOf IsName bytes.now fault) }
    {
        if !Name::is_name(bytes) {
            return Err(ReadFault::Bad {
                at: name_end(bytes) as u32,
            });
        }
        let Ok(text) = str::from_utf8(bytes) else {
            unreachable!()
        };
        Ok(Name {
            inner: String::from_str(alloc, text)?,
        })
    }

    pub fn as_str(&self) -> &str
        ensures value { result.now ≡ self.now }
        ensures valid { IsName self.now }
    {
        self.inner.as_str()
    }

    pub fn copy(&self, alloc: Global) -> Result<Name, OutOfMemory>
        ensures { IfOk result (λ name. name ≡ self.now) }
    {
        Ok(Name {
            inner: String::from_str(alloc, self.inner.as_str())?,
        })
    }
}

// Names stand in the order of their bytes.
impl PartialEq for Name {
    ghost eq = { bytes_eq };

    ghost laws = { Prim.search (comparing, rules) };

    fn eq(&self, other: &Name) -> bool {
        self.inner.as_str() == other.inner.as_str()
    }
}

impl Eq for Name {
    ghost laws = { Prim.search (comparing, rules) };
}

impl Ord for Name {
    ghost cmp = { slice_cmp nat_cmp };

    ghost total = { Prim.search (comparing, rules) };

    ghost matches_partial_cmp = { Prim.search (comparing, rules) };

    ghost matches_eq = { Prim.search (comparing, rules) };

    fn cmp(&self, other: &Name) -> Ordering {
        self.inner.as_str().cmp(other.inner.as_str())
    }
}

impl PartialOrd for Name {
    ghost partial_cmp = { as_partial_cmp (slice_cmp nat_cmp) };

    ghost laws = { partial_order_from_own_ties (Prim.search (comparing, rules)) (Prim.search (comparing, rules)) };

    fn partial_cmp(&self, other: &Name) -> Option<Ordering> {
        Some(self.cmp(other))
    }
}

fn letter(byte: u8) -> bool
    ensures { result ≡ is_letter byte }
{
    byte.is_ascii_alphabetic()
}

pub(crate) fn name_byte(byte: u8) -> bool
    ensures { result ≡ is_name_byte byte }
{
    letter(byte) || byte.is_ascii_digit() || byte == b'-' || byte == b'_' || byte == b'+'
}

fn all_name_bytes(bytes: &[u8]) -> bool
    ensures { result ≡ list_all is_name_byte bytes.now }
{
    bytes.iter().all(|b| name_byte(*b))
}

fn has_letter(bytes: &[u8]) -> bool
    ensures { result ≡ list_any is_letter bytes.now }
{
    bytes.iter().any(|b| letter(*b))
}

// How many bytes of the front are those of names.
fn name_run(bytes: &[u8]) -> usize
    ensures { result ≡ length (take_while is_name_byte bytes.now) }
{
    bytes.iter().take_while(|b| name_byte(**b)).count()
}

/// The length of the longest front that begins a name.
pub(crate) fn name_end(bytes: &[u8]) -> usize
    ensures { IsLongestBegin IsName bytes.now result }
{
    let run = name_run(bytes);
    if run < NAME_LIMIT {
        return run;
    }
    if has_letter(&bytes[..NAME_LIMIT]) {
        NAME_LIMIT
    } else {
        NAME_LIMIT - 1
    }
}

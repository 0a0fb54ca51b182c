// Versions of packages.
ghost use Rattle.std.specs.Prelude.{◌≡◌, ◌<◌, ◌^◌, ◌==◌, ◌↔◌, IfOk, IfErr, IsTrue, length, string_bytes};
ghost use Rattle.std.specs.List.{list_all, take_while};
ghost use Rattle.std.proofs.Common.{rules};
ghost use Rattle.std.specs.Cmp.Rules.{comparing};
ghost use Rattle.std.specs.Str.{bytes_eq};
ghost use Rattle.opam_names.specs.Names.{IsVersion, is_version, is_version_byte};
ghost use Rattle.opam_names.specs.Orders.{text_order};
ghost use Rattle.opam_names.specs.Faults.{IsFaultOf, IsLongestBegin};

use crate::limits::VERSION_LIMIT;
use crate::names::name_byte;
use crate::order::text_order;
use crate::{OutOfMemory, ReadFault};
use std::alloc::Global;
use std::cmp::Ordering;
use std::marker::Model;

/// The version of a package: a text of letters, digits, `-`, `_`, `+`, `.` and `~`, not empty, at most
/// [`VERSION_LIMIT`] bytes (opam manual, file format: version ordering).
#[derive(Drop)]
pub struct Version {
    inner: String,
}

impl Model for Version {
    ghost use Rattle.std.specs.Prelude.{ℕ, List, string_bytes};
    ghost use Rattle.std.specs.Coded.{coded_list, coded_ℕ};
    ghost use Rattle.opam_names.specs.Names.{IsVersion};

    ghost Value = { List ℕ };

    ghost coded = { coded_list coded_ℕ };

    ghost view = { λ n. string_bytes n.inner };

    ghost invariant = { λ n. IsVersion (string_bytes n.inner) };
}

impl Version {
    /// Whether the bytes are a version.
    pub fn is_version(bytes: &[u8]) -> bool
        ensures value { result ≡ is_version bytes.now }
        ensures valid { IsTrue result ↔ IsVersion bytes.now }
    {
        all_version_bytes(bytes) && !bytes.is_empty() && bytes.len() <= VERSION_LIMIT
    }

    pub fn read(alloc: Global, bytes: &[u8]) -> Result<Version, ReadFault>
        requires { length bytes.now < 2 ^ 32 }
        ensures ok { IfOk result (λ version. version ≡ bytes.now) }
        ensures valid { IfOk result (λ version. IsVersion version) }
        ensures err { IfErr result (λ fault. IsFaultOf IsVersion bytes.now fault) }
    {
        if !Version::is_version(bytes) {
            return Err(ReadFault::Bad {
                at: version_end(bytes) as u32,
            });
        }
        let Ok(text) = str::from_utf8(bytes) else {
            unreachable!()
        };
        Ok(Version {
            inner: String::from_str(alloc, text)?,
        })
    }

    pub fn as_str(&self) -> &str
        ensures value { result.now ≡ self.now }
        ensures valid { IsVersion self.now }
    {
        self.inner.as_str()
    }

    pub fn copy(&self, alloc: Global) -> Result<Version, OutOfMemory>
        ensures { IfOk result (λ version. version ≡ self.now) }
    {
        Ok(Version {
            inner: String::from_str(alloc, self.inner.as_str())?,
        })
    }

    /// The order of versions, by their texts (opam manual, file format: version ordering). It is no `Ord`, since `1.0`
    /// and `1.00` are equal in it and are two versions.
    pub fn order(&self, other: &Version) -> Ordering
        ensures { result ≡ text_order self.now other.now }
    {
        text_order(self.inner.as_str(), other.inner.as_str())
    }
}

// Versions are the same where their texts are: `1.0` and `1.00` are two.
impl PartialEq for Version {
    ghost eq = { bytes_eq };

    ghost laws = { Prim.search (comparing, rules) };

    fn eq(&self, other: &Version) -> bool {
        self.inner.as_str() == other.inner.as_str()
    }
}

impl Eq for Version {
    ghost laws = { Prim.search (comparing, rules) };
}

fn version_byte(byte: u8) -> bool
    ensures { result ≡ is_version_byte byte }
{
    name_byte(byte) || byte == b'.' || byte == b'~'
}

fn all_version_bytes(bytes: &[u8]) -> bool
    ensures { result ≡ list_all is_version_byte bytes.now }
{
    bytes.iter().all(|b| version_byte(*b))
}

// How many bytes of the front are those of versions.
fn version_run(bytes: &[u8]) -> usize
    ensures { result ≡ length (take_while is_version_byte bytes.now) }
{
    bytes.iter().take_while(|b| version_byte(**b)).count()
}

// The length of the longest front that begins a version.
fn version_end(bytes: &[u8]) -> usize
    ensures { IsLongestBegin IsVersion bytes.now result }
{
    let run = version_run(bytes);
    if run < VERSION_LIMIT {
        run
    } else {
        VERSION_LIMIT
    }
}

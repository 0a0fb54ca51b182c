// A package: a name at a version.
ghost use Rattle.std.specs.Prelude.{◌≡◌, ◌<◌, ◌^◌, IfOk, IfErr, length, string_bytes};
ghost use Rattle.std.specs.List.{position};
ghost use Rattle.opam_names.specs.Faults.{IsFaultOf};
ghost use Rattle.opam_names.specs.Packages.{IsPkg, IsPkgText, is_dot, pkg_text};

use crate::names::name_end;
use crate::{Name, OutOfMemory, ReadFault, Version};
use std::alloc::Global;

/// A package: a name at a version. It is written `name.version`.
#[derive(Drop, PartialEq, Eq)]
pub struct Pkg {
    pub name: Name,
    pub version: Version,
}

impl Pkg {
    /// Reads `name.version`, which splits at its first dot.
    pub fn read(alloc: Global, bytes: &[u8]) -> Result<Pkg, ReadFault>
        requires { length bytes.now < 2 ^ 32 }
        ensures ok { IfOk result (λ pkg. IsPkgText bytes.now pkg) }
        ensures err { IfErr result (λ fault. IsFaultOf IsPkg bytes.now fault) }
    {
        let Some(dot) = first_dot(bytes) else {
            return Err(ReadFault::Bad {
                at: name_end(bytes) as u32,
            });
        };
        let name = match Name::read(alloc, &bytes[..dot]) {
            Ok(name) => name,
            Err(ReadFault::Bad { at }) => return Err(ReadFault::Bad { at }),
            Err(ReadFault::Memory) => return Err(ReadFault::Memory),
        };
        match Version::read(alloc, &bytes[dot + 1..]) {
            Ok(version) => Ok(Pkg { name, version }),
            Err(ReadFault::Bad { at }) => Err(ReadFault::Bad {
                at: dot as u32 + 1 + at,
            }),
            Err(ReadFault::Memory) => Err(ReadFault::Memory),
        }
    }

    /// The name, a dot and the version.
    pub fn print(&self, alloc: Global) -> Result<String, OutOfMemory>
        ensures { IfOk result (λ text. string_bytes text ≡ pkg_text self.now) }
    {
        let mut text = String::from_str(alloc, self.name.as_str())?;
        text.push_str(".")?;
        text.push_str(self.version.as_str())?;
        Ok(text)
    }

    pub fn copy(&self, alloc: Global) -> Result<Pkg, OutOfMemory>
        ensures { IfOk result (λ pkg. pkg ≡ self.now) }
    {
        Ok(Pkg {
            name: self.name.copy(alloc)?,
            version: self.version.copy(alloc)?,
        })
    }
}

fn first_dot(bytes: &[u8]) -> Option<usize>
    ensures { result ≡ position is_dot bytes.now }
{
    bytes.iter().position(|b| *b == b'.')
}

// Words as values of `opam_names`.
ghost use Rattle.std.specs.Prelude.{◌<◌, ◌^◌, length};

use crate::fault::Fault;
use crate::lexer::Word;
use opam_names::{Name, Pkg, ReadFault, RelPath, Version};
use std::alloc::Global;

/// Bytes that a call may take: fewer than 2^32.
pub fn bytes_of(word: &Word) -> &[u8]
    ensures { length result.now < 2 ^ 32 }
{
    cut(word.bytes.as_slice())
}

/// Nothing of bytes that are too many for a call.
pub fn cut(bytes: &[u8]) -> &[u8]
    ensures { length result.now < 2 ^ 32 }
{
    if bytes.len() < 4294967296 { bytes } else { b"" }
}

/// The name that a word is to be.
pub fn name_of(alloc: Global, word: &Word) -> Result<Name, Fault> {
    match Name::read(alloc, bytes_of(word)) {
        Ok(name) => Ok(name),
        Err(ReadFault::Bad { .. }) => Err(Fault::Line("a word is no name")),
        Err(ReadFault::Memory) => Err(Fault::Memory),
    }
}

/// The version that a word is to be.
pub fn version_of(alloc: Global, word: &Word) -> Result<Version, Fault> {
    match Version::read(alloc, bytes_of(word)) {
        Ok(version) => Ok(version),
        Err(ReadFault::Bad { .. }) => Err(Fault::Line("a word is no version")),
        Err(ReadFault::Memory) => Err(Fault::Memory),
    }
}

/// The package that a word is to be.
pub fn pkg_of(alloc: Global, word: &Word) -> Result<Pkg, Fault> {
    match Pkg::read(alloc, bytes_of(word)) {
        Ok(pkg) => Ok(pkg),
        Err(ReadFault::Bad { .. }) => Err(Fault::Line("a word is no package")),
        Err(ReadFault::Memory) => Err(Fault::Memory),
    }
}

/// The path that a word is to be.
pub fn path_of(alloc: Global, word: &Word) -> Result<RelPath, Fault> {
    match RelPath::read(alloc, bytes_of(word)) {
        Ok(path) => Ok(path),
        Err(ReadFault::Bad { .. }) => Err(Fault::Line("a word is no path")),
        Err(ReadFault::Memory) => Err(Fault::Memory),
    }
}

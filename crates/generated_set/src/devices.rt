// A generated set as devices tell it.
ghost use Rattle.std.specs.Prelude.{◌≡◌, ◌++◌, [], IfOk, IsTrue, OnOk, Some, codes};
ghost use Rattle.outside_io.specs.Memories.{files_at, pairs_of};
ghost use Rattle.outside_io.specs.Scripts.{told_by};
ghost use Rattle.opam_names.specs.Names.{is_name};
ghost use Rattle.generated_set.specs.Devices.{built_files, host_files, opam_files, script_at, scripts_of};
ghost use Rattle.generated_set.specs.Texts as texts;

use crate::texts::{file_text, lock_text, name_text, opam_path, opam_text};
use opam_names::{Items, Name, OutOfMemory, Pkg, ReadFault, Text, Version};
use outside_io::{Host, MemoryHost, Script, ScriptShop, Workshop};
use std::alloc::Global;

/// A host with the lock `l`, and in the current folder a repository of the packages that have these needs. It never fails.
pub fn generated_host(alloc: Global, needs: &[Items<u32>]) -> Result<MemoryHost, OutOfMemory>
    ensures told { IfOk result (λ host.
        ⟦<MemoryHost as Host>⟧.files host ≡ Some (files_at (host_files needs.now))) }
    ensures whole { IfOk result (λ host. host.fail ≡ []) }
{
    let mut files = Vec::new(alloc);
    let lock = lock_text(alloc, needs.len())?;
    files.push((String::from_str(alloc, "l")?, lock.into_bytes()))?;
    push_opam_files(alloc, &mut files, needs)?;
    Ok(MemoryHost::new(files, Vec::new(alloc)))
}

fn push_opam_files(
    alloc: Global,
    files: &mut Vec<(String, Vec<u8>)>,
    needs: &[Items<u32>],
) -> Result<(), OutOfMemory>
    ensures { OnOk result
        (pairs_of files.new.items ≡ pairs_of files.old.items ++ opam_files 0 needs.now) }
{
    for (place, row) in needs.iter().enumerate() {
        let path = opam_path(alloc, place)?;
        let text = opam_text(alloc, row.as_slice())?;
        files.push((path, text.into_bytes()))?;
    }
    Ok(())
}

/// A shop in which each of `count` packages builds well, and brings one file.
pub fn generated_shop(alloc: Global, count: u32) -> Result<ScriptShop, OutOfMemory>
    ensures { IfOk result (λ shop.
        ⟦<ScriptShop as Workshop>⟧.told shop ≡ Some (told_by (scripts_of count))) }
{
    let mut scripts = Vec::new(alloc);
    for place in 0..count {
        scripts.push(script_at(alloc, place)?)?;
    }
    Ok(ScriptShop::new(scripts))
}

fn script_at(alloc: Global, place: u32) -> Result<Script, OutOfMemory>
    ensures { IfOk result (λ script. script ≡ script_at place) }
{
    let pkg = Pkg {
        name: name_at(alloc, place)?,
        version: version_one(alloc)?,
    };
    Ok(Script {
        pkg,
        endings: Items::new(alloc),
        files: built_files(alloc, place)?,
    })
}

fn name_at(alloc: Global, place: u32) -> Result<Name, OutOfMemory>
    ensures { IfOk result (λ name. name ≡ texts.name_text place) }
{
    let text = name_text(alloc, place as usize)?;
    name_of(alloc, text.as_str())
}

fn name_of(alloc: Global, text: &str) -> Result<Name, OutOfMemory>
    requires { IsTrue (is_name text.now) }
    ensures { IfOk result (λ name. name ≡ text.now) }
{
    match Name::read(alloc, text.as_bytes()) {
        Ok(name) => Ok(name),
        Err(ReadFault::Bad { .. }) => unreachable!(),
        Err(ReadFault::Memory) => Err(OutOfMemory),
    }
}

fn version_one(alloc: Global) -> Result<Version, OutOfMemory>
    ensures { IfOk result (λ version. version ≡ codes "1") }
{
    match Version::read(alloc, "1".as_bytes()) {
        Ok(version) => Ok(version),
        Err(ReadFault::Bad { .. }) => unreachable!(),
        Err(ReadFault::Memory) => Err(OutOfMemory),
    }
}

// The files in the build folder of a package.
fn built_files(alloc: Global, place: u32) -> Result<Items<(Text, Option<Items<u8>>)>, OutOfMemory>
    ensures { IfOk result (λ files. files ≡ built_files place) }
{
    let mut files = Items::new(alloc);
    let install = format!(in alloc; "p{place}.install")?;
    files.push((
        Text::from_string(install),
        Some(bytes_of(alloc, "lib: [\"f\"]\n")?),
    ))?;
    let text = file_text(alloc, place as usize)?;
    let file = Items::from_vec(text.into_bytes());
    files.push((Text::from_str(alloc, "f")?, Some(file)))?;
    Ok(files)
}

fn bytes_of(alloc: Global, text: &str) -> Result<Items<u8>, OutOfMemory>
    ensures { IfOk result (λ bytes. bytes ≡ text.now) }
{
    Items::from_slice(alloc, text.as_bytes())
}

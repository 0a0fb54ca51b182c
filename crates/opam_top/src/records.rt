// The records of the journal, and their bytes.
ghost use Rattle.std.specs.Prelude.{◌≡◌, ◌<◌, ◌^◌, ◌++◌, IfOk, OnOk, length};
ghost use Rattle.std.specs.List.{flat_map, AllByRecursion};
ghost use Rattle.opam_top.specs.Records.{BodyFits, CanBeWritten, FilesFit, HasSpelling, PlacedFits, exec_byte, files_bytes, head_bytes, long_text, placed_bytes, record_bytes, short_text};
ghost use Rattle.opam_top.specs.declared.records.Rec.{Rec};

use opam_names::{Items, OutOfMemory, Pkg, RelPath};
use std::alloc::Global;

/// A file that is put below the prefix: where it stands, whether it is executable, and what it holds.
#[derive(Drop)]
pub struct Placed {
    pub path: RelPath,
    pub exec: bool,
    pub bytes: Items<u8>,
}

/// What a record of the journal says was done: a package was installed, with its opam text and its files, or removed.
#[derive(Drop)]
pub enum Rec {
    Install {
        pkg: Pkg,
        opam: Items<u8>,
        files: Items<Placed>,
    },
    Remove {
        pkg: Pkg,
    },
}

/// The bytes of a record (format 1).
pub fn encode(alloc: Global, entry: &Rec) -> Result<Items<u8>, OutOfMemory>
    requires { CanBeWritten entry.now }
    ensures { IfOk result (λ bytes. bytes ≡ record_bytes entry.now) }
{
    match entry {
        Rec::Install { pkg, opam, files } => {
            encode_install(alloc, pkg, opam.as_slice(), files.as_slice())
        }
        Rec::Remove { pkg } => encode_removal(alloc, pkg),
    }
}

/// The bytes of the record of an install (format 1).
pub fn encode_install(
    alloc: Global,
    pkg: &Pkg,
    opam: &[u8],
    files: &[Placed],
) -> Result<Items<u8>, OutOfMemory>
    requires { BodyFits opam.now files.now }
    ensures { IfOk result (λ bytes. bytes ≡ record_bytes (Rec.Install pkg.now opam.now files.now)) }
{
    let mut out = Vec::new(alloc);
    push_head(&mut out, 1, pkg)?;
    push_long(&mut out, opam)?;
    push_files(&mut out, files)?;
    Ok(Items::from_vec(out))
}

fn encode_removal(alloc: Global, pkg: &Pkg) -> Result<Items<u8>, OutOfMemory>
    ensures { IfOk result (λ bytes. bytes ≡ record_bytes (Rec.Remove pkg.now)) }
{
    let mut out = Vec::new(alloc);
    push_head(&mut out, 2, pkg)?;
    Ok(Items::from_vec(out))
}

fn push_head(out: &mut Vec<u8>, kind: u8, pkg: &Pkg) -> Result<(), OutOfMemory>
    ensures { OnOk result (out.new.items ≡ out.old.items ++ head_bytes kind pkg.now) }
{
    out.extend_from_slice(b"OPAMREC1")?;
    out.push(kind)?;
    push_short(out, pkg.name.as_str().as_bytes())?;
    push_short(out, pkg.version.as_str().as_bytes())
}

fn push_short(out: &mut Vec<u8>, bytes: &[u8]) -> Result<(), OutOfMemory>
    requires { length bytes.now < 2 ^ 16 }
    ensures { OnOk result (out.new.items ≡ out.old.items ++ short_text bytes.now) }
{
    out.extend_from_slice(&(bytes.len() as u16).to_be_bytes())?;
    out.extend_from_slice(bytes)?;
    Ok(())
}

fn push_long(out: &mut Vec<u8>, bytes: &[u8]) -> Result<(), OutOfMemory>
    requires { length bytes.now < 2 ^ 32 }
    ensures { OnOk result (out.new.items ≡ out.old.items ++ long_text bytes.now) }
{
    out.extend_from_slice(&(bytes.len() as u32).to_be_bytes())?;
    out.extend_from_slice(bytes)?;
    Ok(())
}

fn push_files(out: &mut Vec<u8>, files: &[Placed]) -> Result<(), OutOfMemory>
    requires { FilesFit files.now }
    ensures { OnOk result (out.new.items ≡ out.old.items ++ files_bytes files.now) }
{
    out.extend_from_slice(&(files.len() as u32).to_be_bytes())?;
    push_each(out, files)
}

fn push_each(out: &mut Vec<u8>, files: &[Placed]) -> Result<(), OutOfMemory>
    requires { AllByRecursion PlacedFits files.now }
    ensures { OnOk result (out.new.items ≡ out.old.items ++ flat_map placed_bytes files.now) }
{
    for file in files {
        push_placed(out, file)?;
    }
    Ok(())
}

fn push_placed(out: &mut Vec<u8>, file: &Placed) -> Result<(), OutOfMemory>
    requires { PlacedFits file.now }
    ensures { OnOk result (out.new.items ≡ out.old.items ++ placed_bytes file.now) }
{
    out.push(byte_of(file.exec))?;
    push_short(out, file.path.as_str().as_bytes())?;
    push_long(out, file.bytes.as_slice())
}

fn byte_of(exec: bool) -> u8
    ensures { result ≡ exec_byte exec }
{
    if exec { 1 } else { 0 }
}

/// Bytes spell at most one record.
pub fn one_record_for_bytes()
    ensures { (a b : Rec) → HasSpelling a → HasSpelling b → record_bytes a ≡ record_bytes b → a ≡ b }
{}

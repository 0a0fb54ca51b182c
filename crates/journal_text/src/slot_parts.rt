// The parts of a slot, for a slot that is written piece by piece: its front with the number of entries, each entry, the
// number of roots, each root, the number of owned paths, each of these.
ghost use Rattle.std.specs.Prelude.{◌≡◌, ◌<◌, ◌^◌, ◌++◌, codes, length, OnOk};
ghost use Rattle.std.specs.Int.{to_be_bytes, w32, w64};
ghost use Rattle.opam_names.specs.Names.{IsName};
ghost use Rattle.opam_names.specs.Paths.{IsPath};
ghost use Rattle.journal_text.specs.Words.{long_text, short_text};
ghost use Rattle.journal_text.specs.Parts.{IsPackage, pkg_bytes};

use crate::writer::{push_count, push_long, push_number, push_short};
use opam_names::{Name, OutOfMemory, Pkg, RelPath};

/// The format, the number of the last record in the slot, and how many entries follow.
pub fn push_slot_front(out: &mut Vec<u8>, number: u64, entries: u32) -> Result<(), OutOfMemory>
    ensures { OnOk result (out.new.items ≡
        out.old.items ++ (codes "OPAMSNP2" ++ (to_be_bytes w64 number ++ to_be_bytes w32 entries))) }
{
    out.extend_from_slice(b"OPAMSNP2")?;
    push_number(out, number)?;
    push_count(out, entries)
}

/// An entry: a package and its opam text.
pub fn push_slot_entry(out: &mut Vec<u8>, pkg: &Pkg, opam: &[u8]) -> Result<(), OutOfMemory>
    requires { length opam.now < 2 ^ 32 }
    ensures spelled { OnOk result
        (out.new.items ≡ out.old.items ++ (pkg_bytes pkg.now ++ long_text opam.now)) }
    ensures valid { OnOk result (IsPackage pkg.now) }
{
    push_short(out, pkg.name.as_str().as_bytes())?;
    push_short(out, pkg.version.as_str().as_bytes())?;
    push_long(out, opam)
}

/// How many roots, or owned paths, follow.
pub fn push_slot_count(out: &mut Vec<u8>, count: u32) -> Result<(), OutOfMemory>
    ensures { OnOk result (out.new.items ≡ out.old.items ++ to_be_bytes w32 count) }
{
    push_count(out, count)
}

/// A root.
pub fn push_slot_root(out: &mut Vec<u8>, root: &Name) -> Result<(), OutOfMemory>
    ensures spelled { OnOk result (out.new.items ≡ out.old.items ++ short_text root.now) }
    ensures valid { OnOk result (IsName root.now) }
{
    push_short(out, root.as_str().as_bytes())
}

/// An owned path, and the place of its owner among the entries.
pub fn push_slot_path(out: &mut Vec<u8>, path: &RelPath, owner: u32) -> Result<(), OutOfMemory>
    ensures spelled { OnOk result
        (out.new.items ≡ out.old.items ++ (short_text path.now ++ to_be_bytes w32 owner)) }
    ensures valid { OnOk result (IsPath path.now) }
{
    push_short(out, path.as_str().as_bytes())?;
    push_count(out, owner)
}

// Who owns the paths of a switch.
ghost use Rattle.std.specs.Prelude.{◌≡◌, ◌++◌, OnOk};
ghost use Rattle.std.specs.Option.{option_copied};
ghost use Rattle.std.specs.Ordering.{nat_cmp};
ghost use Rattle.std.specs.Cmp.Lexicographic.{slice_cmp};
ghost use Rattle.std.specs.FinMap.{find, get};
ghost use Rattle.opam_top.specs.Owners.{owned_by, owners_of};

use crate::records::Placed;
use opam_names::{OutOfMemory, Pkg, RelPath};
use std::alloc::Global;
use std::cmp::Ordering;

// Who owns the path.
#[tactic(auto, using(crate::proofs::Owned::get_owner))]
pub fn owner_of<'a>(owners: &'a [(RelPath, Pkg)], path: &RelPath) -> Option<&'a Pkg>
    ensures { option_copied result ≡ get (owners_of owners.now) path.now }
{
    find_owner(owners, path)
}

fn find_owner<'a>(owners: &'a [(RelPath, Pkg)], path: &RelPath) -> Option<&'a Pkg>
    ensures { option_copied result ≡ find (slice_cmp nat_cmp) path.now owners.now }
{
    let mut rest = owners;
    while let [(owned, owner), after @ ..] = rest {
        if path.as_str().cmp(owned.as_str()) == Ordering::Equal {
            return Some(owner);
        }
        rest = after;
    }
    None
}

// From now on the package owns the paths of these files.
pub fn own_files(
    alloc: Global,
    owners: &mut Vec<(RelPath, Pkg)>,
    pkg: &Pkg,
    files: &[Placed],
) -> Result<(), OutOfMemory>
    ensures { OnOk result (owners.new.items ≡ owners.old.items ++ owned_by pkg.now files.now) }
{
    for file in files {
        owners.push((file.path.copy(alloc)?, pkg.copy(alloc)?))?;
    }
    Ok(())
}

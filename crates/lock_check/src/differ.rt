// Whether members have different names.
ghost use Rattle.std.specs.Prelude.{◌≡◌, ◌↔◌, IfOk, IsTrue, OnOk, bytes_eq, map, not};
ghost use Rattle.std.specs.List.{IsDistinct};
ghost use Rattle.opam_filter.specs.NameSets.{with_name};
ghost use Rattle.lock_check.specs.Chased.{is_among};
ghost use Rattle.lock_check.specs.Targets.{member_name};

use crate::growth::{has, insert};
use opam_names::{Name, OutOfMemory};
use opam_package::Member;
use std::alloc::Global;
use std::collections::BTreeSet;

// Adds a name, and says whether it is a new one.
fn is_new(alloc: Global, names: &mut BTreeSet<Name>, name: &Name) -> Result<bool, OutOfMemory>
    ensures new { IfOk result (λ new. new ≡ not (is_among names.old.keys name.now)) }
    ensures keys { OnOk result (names.new.keys ≡ with_name names.old.keys name.now) }
{
    let new = !has(names, name);
    insert(names, name.copy(alloc)?)?;
    Ok(new)
}

/// Whether no two members have the same name, as calls want it of what is installed.
pub fn names_differ(alloc: Global, members: &[Member]) -> Result<bool, OutOfMemory>
    ensures { IfOk result (λ differ. IsTrue differ
        ↔ IsDistinct bytes_eq (map member_name members.now)) }
{
    let mut names = BTreeSet::new(alloc);
    for member in members {
        if !is_new(alloc, &mut names, &member.package.pkg.name)? {
            return Ok(false);
        }
    }
    Ok(true)
}

// The atoms of a formula.
ghost use Rattle.std.specs.Prelude.{◌≡◌, IfOk};
ghost use Rattle.opam_filter.specs.Sets.{atoms};

use crate::Formula;
use opam_names::{Items, OutOfMemory};
use std::alloc::Global;

/// Each atom as a formula of its own, from left to right.
pub fn atoms(alloc: Global, formula: Formula) -> Result<Items<Formula>, OutOfMemory>
    ensures { IfOk result (λ found. found ≡ atoms formula) }
{
    let mut left = sqlite_items::Items::new(alloc);
    left.push(formula)?;
    let mut found = Vec::new(alloc);
    // From the end, so the atoms come from right to left.
    while let Some(part) = left.pop() {
        match part {
            Formula::Atom { name, braces } => found.push(Formula::Atom { name, braces })?,
            Formula::And(parts) | Formula::Or(parts) => left.append(parts)?,
        }
    }
    found.reverse();
    Ok(Items::from_vec(found))
}

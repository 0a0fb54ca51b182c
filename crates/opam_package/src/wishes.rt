// Optional dependencies, found by the names of their packages.
ghost use Rattle.std.specs.Prelude.{◌≡◌, IfOk, map};
ghost use Rattle.opam_names.specs.ByteOrders.{NeverFallsBy};
ghost use Rattle.opam_package.specs.Wishes.{atom_key, front_of, meets_some, wish_key, wish_of, wishes_in};

use opam_filter::{Reduced, meets};
use opam_names::{ByteKey, OutOfMemory, Pkg, count_before_bytes, sort_by_bytes};
use std::alloc::Global;

/// What is left of an atom, which stands by the name of its package.
#[derive(Drop)]
pub(crate) struct Wish {
    pub atom: Reduced,
}

impl ByteKey for Wish {
    ghost key = { λ wish. atom_key wish.atom };

    fn key(&self) -> &[u8] {
        match &self.atom {
            Reduced::Atom { name, .. } => name.as_str().as_bytes(),
            Reduced::Dropped | Reduced::And(_) | Reduced::Or(_) => b"",
        }
    }
}

fn copy_atoms(alloc: Global, atoms: &[Reduced]) -> Result<Vec<Wish>, OutOfMemory>
    ensures { IfOk result (λ wishes. wishes.items ≡ map wish_of atoms.now) }
{
    let mut wishes = Vec::new(alloc);
    for atom in atoms {
        wishes.push(Wish {
            atom: atom.copy(alloc)?,
        })?;
    }
    Ok(wishes)
}

/// Atoms in the byte order of their names.
pub(crate) fn wishes_of(alloc: Global, atoms: &[Reduced]) -> Result<Vec<Wish>, OutOfMemory>
    ensures { IfOk result (λ wishes. wishes.items ≡ wishes_in atoms.now) }
{
    let mut wishes = copy_atoms(alloc, atoms)?;
    sort_by_bytes(&mut wishes)?;
    Ok(wishes)
}

// Whether the package meets one of those at the front that have its name.
fn meets_front(wishes: &[Wish], other: &Pkg) -> bool
    ensures { result ≡ meets_some (front_of other.now wishes.now) other.now }
{
    let name = other.name.as_str().as_bytes();
    wishes
        .iter()
        .take_while(|wish| wish.key() == name)
        .any(|wish| meets(&wish.atom, other))
}

/// Whether the package meets one of them. Those of its name stand together, and are found by halves.
#[tactic(auto, using(crate::proofs::Wished::met_where_found))]
pub(crate) fn meets_some(wishes: &[Wish], other: &Pkg) -> bool
    requires { NeverFallsBy wish_key wishes.now }
    ensures { result ≡ meets_some wishes.now other.now }
{
    let first = count_before_bytes(wishes, other.name.as_str().as_bytes());
    let (_, rest) = wishes.split_at(first);
    meets_front(rest, other)
}

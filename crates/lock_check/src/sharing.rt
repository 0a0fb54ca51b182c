// Which members a package forbids, and which share its classes, found by halves.
ghost use Rattle.std.specs.Prelude.{[], ◌∷◌, ◌≡◌, ◌++◌, IfOk, OnOk, flat_map, map, option_map};
ghost use Rattle.std.specs.Option.{option_copied};
ghost use Rattle.opam_names.specs.ByteOrders.{NeverFallsBy, each_once};
ghost use Rattle.opam_filter.specs.Sets.{Rises};
ghost use Rattle.lock_check.specs.Sharing as sharing;
ghost use Rattle.lock_check.specs.Violations as violations;

use crate::What;
use crate::held::bound_at;
use crate::targets::name_set;
use opam_filter::Reduced;
use opam_names::{
    ByteKey, Items, Name, OutOfMemory, Pkg, Text, count_before_bytes, order_is_stable, texts_rise,
};
use opam_package::{Member, Package, forbids};
use std::alloc::Global;

/// A class of a package. It stands by the class.
#[derive(Drop)]
pub(crate) struct Spot {
    pub(crate) class: Text,
    pub(crate) pkg: Pkg,
}

impl ByteKey for Spot {
    ghost use Rattle.lock_check.specs.Sharing.{spot_class};

    ghost key = { spot_class };

    fn key(&self) -> &[u8] {
        self.class.as_str().as_bytes()
    }
}

fn note_name(alloc: Global, atom: &Reduced, names: &mut Items<Name>) -> Result<(), OutOfMemory>
    ensures { OnOk result (names.new ≡ names.old ++ sharing.atom_name atom.now) }
{
    match atom {
        Reduced::Atom { name, .. } => names.push(name.copy(alloc)?),
        Reduced::Dropped | Reduced::And(_) | Reduced::Or(_) => Ok(()),
    }
}

fn atom_names(alloc: Global, atoms: &[Reduced]) -> Result<Items<Name>, OutOfMemory>
    ensures { IfOk result (λ names. names ≡ sharing.atom_names atoms.now) }
{
    let mut names = Items::new(alloc);
    for atom in atoms {
        note_name(alloc, atom, &mut names)?;
    }
    Ok(names)
}

// The names of atoms in byte order, each once.
fn sorted_names(alloc: Global, atoms: &[Reduced]) -> Result<Items<Name>, OutOfMemory>
    ensures { IfOk result (λ names. names ≡ each_once (sharing.atom_names atoms.now)) }
{
    let names = atom_names(alloc, atoms)?;
    let once = name_set(alloc, names.as_slice())?;
    Ok(Items::from_vec(once.into_iter().collect(alloc)?))
}

fn note_conflict(
    alloc: Global,
    set: &[Pkg],
    dependent: &Package,
    name: &Name,
    whats: &mut Items<What>,
) -> Result<(), OutOfMemory>
    requires { Rises set.now }
    ensures { OnOk result (whats.new
        ≡ whats.old ++ sharing.conflict_at set.now dependent.now name.now) }
{
    match bound_at(set, name) {
        None => Ok(()),
        Some(other) => {
            if !forbids(dependent, other) {
                return Ok(());
            }
            whats.push(What::Conflict(other.copy(alloc)?))
        }
    }
}

fn note_named(
    alloc: Global,
    set: &[Pkg],
    dependent: &Package,
    names: &[Name],
    whats: &mut Items<What>,
) -> Result<(), OutOfMemory>
    requires { Rises set.now }
    ensures { OnOk result (whats.new
        ≡ whats.old ++ sharing.conflicts_at set.now dependent.now names.now) }
{
    for name in names {
        note_conflict(alloc, set, dependent, name, whats)?;
    }
    Ok(())
}

/// Adds the packages of the set that a package forbids. They are found by the names of its conflicts.
#[tactic(auto, using(crate::proofs::Conflicts::conflicts_found))]
pub(crate) fn note_conflicts(
    alloc: Global,
    set: &[Pkg],
    dependent: &Package,
    whats: &mut Items<What>,
) -> Result<(), OutOfMemory>
    requires { Rises set.now }
    ensures { OnOk result (whats.new
        ≡ whats.old ++ violations.conflicts_among set.now dependent.now) }
{
    texts_rise();
    let names = sorted_names(alloc, dependent.conflicts.as_slice())?;
    note_named(alloc, set, dependent, names.as_slice(), whats)
}

fn note_spots(alloc: Global, member: &Member, spots: &mut Items<Spot>) -> Result<(), OutOfMemory>
    ensures { OnOk result (spots.new ≡ spots.old ++ sharing.member_spots member.now) }
{
    for class in member.package.classes.as_slice() {
        spots.push(Spot {
            class: class.copy(alloc)?,
            pkg: member.package.pkg.copy(alloc)?,
        })?;
    }
    Ok(())
}

fn all_spots(alloc: Global, members: &[Member]) -> Result<Items<Spot>, OutOfMemory>
    ensures { IfOk result (λ spots. spots ≡ flat_map sharing.member_spots members.now) }
{
    let mut spots = Items::new(alloc);
    for member in members {
        note_spots(alloc, member, &mut spots)?;
    }
    Ok(spots)
}

/// The classes of members in byte order; of one class they stand as the members do.
pub(crate) fn class_spots(alloc: Global, members: &[Member]) -> Result<Items<Spot>, OutOfMemory>
    ensures value { IfOk result (λ spots. spots ≡ sharing.class_spots members.now) }
    ensures order { IfOk result (NeverFallsBy sharing.spot_class) }
{
    order_is_stable::<Spot>();
    let mut spots = all_spots(alloc, members)?;
    spots.sort_by_bytes()?;
    Ok(spots)
}

// The first of those at the front with this class that is of another package.
fn front_sharer<'a>(spots: &'a [Spot], dependent: &Package, class: &Text) -> Option<&'a Pkg>
    ensures { option_copied result
        ≡ option_map sharing.spot_pkg (sharing.front_sharer dependent.now class.now spots.now) }
{
    for spot in spots {
        if spot.class != *class {
            return None;
        }
        if spot.pkg.name != dependent.pkg.name {
            return Some(&spot.pkg);
        }
    }
    None
}

/// The first other package that has the class.
#[tactic(auto, using(crate::proofs::Classes::sharer_found))]
pub(crate) fn sharer<'a>(spots: &'a [Spot], dependent: &Package, class: &Text) -> Option<&'a Pkg>
    requires { NeverFallsBy sharing.spot_class spots.now }
    ensures { option_copied result
        ≡ sharing.first_sharer spots.now dependent.now class.now }
{
    let first = count_before_bytes(spots, class.as_str().as_bytes());
    let (_, rest) = spots.split_at(first);
    front_sharer(rest, dependent, class)
}

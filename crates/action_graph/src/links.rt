// To which members of a set a package leads, by their places. What it names is looked up, so that no other member is asked.
ghost use Rattle.std.specs.Prelude.{◌≡◌, ◌∷◌, ◌++◌, [], ◌<◌, ◌^◌, length, map, bytes_eq, IfOk, OnOk};
ghost use Rattle.std.specs.List.{IsDistinct};
ghost use Rattle.std.specs.Option.{option_copied};
ghost use Rattle.opam_filter.specs.Sets as kept;
ghost use Rattle.action_graph.specs.Leaving.{name_of};
ghost use Rattle.action_graph.specs.Links as links;
ghost use Rattle.action_graph.specs.Looking.{Gathers, IsInOrder, is_named_by, is_wished_by};
ghost use Rattle.action_graph.specs.Looking as looking;

use crate::lookup::Lookup;
use opam_filter::{Reduced, meets, names};
use opam_names::{Items, Name, OutOfMemory};
use opam_package::{Member, Need, Package};
use std::alloc::Global;

fn atom_name(atom: &Reduced) -> Option<&Name>
    ensures { option_copied result ≡ looking.atom_name atom.now }
{
    match atom {
        Reduced::Atom { name, .. } => Some(name),
        Reduced::Dropped | Reduced::And(_) | Reduced::Or(_) => None,
    }
}

// Adds the place of the member of a name, where that is another one.
fn note_name<L: Lookup>(
    members: &[Member],
    lookup: &L,
    dependent: &Package,
    name: &Name,
    places: &mut Vec<u32>,
) -> Result<(), OutOfMemory>
    requires small { length members.now < 2 ^ 32 }
    requires fit { L.fit lookup.now members.now }
    requires differ { IsDistinct bytes_eq (map name_of members.now) }
    ensures { OnOk result (Gathers members.now (is_named_by dependent.now (name.now ∷ []))
        places.old.items places.new.items) }
{
    if *name == dependent.pkg.name {
        return Ok(());
    }
    match lookup.find(members, name) {
        None => {}
        Some(place) => places.push(place)?,
    }
    Ok(())
}

fn note_names<L: Lookup>(
    members: &[Member],
    lookup: &L,
    dependent: &Package,
    names: &[Name],
    places: &mut Vec<u32>,
) -> Result<(), OutOfMemory>
    requires small { length members.now < 2 ^ 32 }
    requires fit { L.fit lookup.now members.now }
    requires differ { IsDistinct bytes_eq (map name_of members.now) }
    ensures { OnOk result (Gathers members.now (is_named_by dependent.now names.now)
        places.old.items places.new.items) }
{
    for name in names {
        note_name(members, lookup, dependent, name, places)?;
    }
    Ok(())
}

// Adds the places of the members whose names a formula keeps, where they are other ones. Most formulas are one package, whose
// name is looked up as it stands there.
fn note_formula<L: Lookup>(
    alloc: Global,
    members: &[Member],
    lookup: &L,
    dependent: &Package,
    formula: &Reduced,
    places: &mut Vec<u32>,
) -> Result<(), OutOfMemory>
    requires small { length members.now < 2 ^ 32 }
    requires fit { L.fit lookup.now members.now }
    requires differ { IsDistinct bytes_eq (map name_of members.now) }
    ensures { OnOk result (Gathers members.now
        (is_named_by dependent.now (kept.names formula.now)) places.old.items places.new.items) }
{
    match atom_name(formula) {
        Some(name) => note_name(members, lookup, dependent, name, places),
        None => {
            let kept = names(alloc, formula)?;
            note_names(members, lookup, dependent, kept.as_slice(), places)
        }
    }
}

// The same of the formulas as they are when `build` and `post` are false.
fn note_running<L: Lookup>(
    alloc: Global,
    members: &[Member],
    lookup: &L,
    dependent: &Package,
    places: &mut Vec<u32>,
) -> Result<(), OutOfMemory>
    requires small { length members.now < 2 ^ 32 }
    requires fit { L.fit lookup.now members.now }
    requires differ { IsDistinct bytes_eq (map name_of members.now) }
    ensures { OnOk result (Gathers members.now
        (is_named_by dependent.now (looking.names_to_run dependent.now.items))
        places.old.items places.new.items) }
{
    for need in dependent.items.as_slice() {
        note_formula(alloc, members, lookup, dependent, &need.runtime, places)?;
    }
    Ok(())
}

fn note_need<L: Lookup>(
    alloc: Global,
    members: &[Member],
    lookup: &L,
    dependent: &Package,
    need: &Need,
    places: &mut Vec<u32>,
) -> Result<(), OutOfMemory>
    requires small { length members.now < 2 ^ 32 }
    requires fit { L.fit lookup.now members.now }
    requires differ { IsDistinct bytes_eq (map name_of members.now) }
    ensures { OnOk result (Gathers members.now
        (is_named_by dependent.now (kept.names need.now.runtime ++ kept.names need.now.building))
        places.old.items places.new.items) }
{
    note_formula(alloc, members, lookup, dependent, &need.runtime, places)?;
    note_formula(alloc, members, lookup, dependent, &need.building, places)
}

// The same, and as they are when `build` is true.
fn note_building<L: Lookup>(
    alloc: Global,
    members: &[Member],
    lookup: &L,
    dependent: &Package,
    places: &mut Vec<u32>,
) -> Result<(), OutOfMemory>
    requires small { length members.now < 2 ^ 32 }
    requires fit { L.fit lookup.now members.now }
    requires differ { IsDistinct bytes_eq (map name_of members.now) }
    ensures { OnOk result (Gathers members.now
        (is_named_by dependent.now (looking.names_to_build dependent.now.items))
        places.old.items places.new.items) }
{
    for need in dependent.items.as_slice() {
        note_need(alloc, members, lookup, dependent, need, places)?;
    }
    Ok(())
}

// Adds the place of the member that meets an atom, where that is another one.
fn note_wish<L: Lookup>(
    members: &[Member],
    lookup: &L,
    dependent: &Package,
    atom: &Reduced,
    places: &mut Vec<u32>,
) -> Result<(), OutOfMemory>
    requires small { length members.now < 2 ^ 32 }
    requires fit { L.fit lookup.now members.now }
    requires differ { IsDistinct bytes_eq (map name_of members.now) }
    ensures { OnOk result (Gathers members.now (is_wished_by dependent.now (atom.now ∷ []))
        places.old.items places.new.items) }
{
    match atom_name(atom) {
        None => Ok(()),
        Some(name) => match lookup.find(members, name) {
            None => Ok(()),
            Some(place) => {
                let pkg = &members[place as usize].package.pkg;
                if pkg.name != dependent.pkg.name && meets(atom, pkg) {
                    places.push(place)?;
                }
                Ok(())
            }
        },
    }
}

fn note_wishes<L: Lookup>(
    members: &[Member],
    lookup: &L,
    dependent: &Package,
    places: &mut Vec<u32>,
) -> Result<(), OutOfMemory>
    requires small { length members.now < 2 ^ 32 }
    requires fit { L.fit lookup.now members.now }
    requires differ { IsDistinct bytes_eq (map name_of members.now) }
    ensures { OnOk result (Gathers members.now (is_wished_by dependent.now dependent.now.depopts)
        places.old.items places.new.items) }
{
    for atom in dependent.depopts.as_slice() {
        note_wish(members, lookup, dependent, atom, places)?;
    }
    Ok(())
}

/// Puts places into their order, each once.
pub(crate) fn put_in_order(places: &mut Vec<u32>)
    ensures { IsInOrder places.old.items places.new.items }
{
    places.sort_unstable();
    places.dedup();
}

/// The places of the members that the package needs when it runs.
pub(crate) fn edge_places<L: Lookup>(
    alloc: Global,
    dependent: &Package,
    members: &[Member],
    lookup: &L,
) -> Result<Items<u32>, OutOfMemory>
    requires small { length members.now < 2 ^ 32 }
    requires fit { L.fit lookup.now members.now }
    requires differ { IsDistinct bytes_eq (map name_of members.now) }
    ensures { IfOk result (λ places. places ≡ links.edge_places dependent.now members.now) }
{
    let mut places = Vec::new(alloc);
    note_running(alloc, members, lookup, dependent, &mut places)?;
    note_wishes(members, lookup, dependent, &mut places)?;
    put_in_order(&mut places);
    Ok(Items::from_vec(places))
}

/// The places of those that it needs when it runs or is built.
pub(crate) fn need_places<L: Lookup>(
    alloc: Global,
    dependent: &Package,
    members: &[Member],
    lookup: &L,
) -> Result<Items<u32>, OutOfMemory>
    requires small { length members.now < 2 ^ 32 }
    requires fit { L.fit lookup.now members.now }
    requires differ { IsDistinct bytes_eq (map name_of members.now) }
    ensures { IfOk result (λ places. places ≡ links.need_places dependent.now members.now) }
{
    let mut places = Vec::new(alloc);
    note_building(alloc, members, lookup, dependent, &mut places)?;
    note_wishes(members, lookup, dependent, &mut places)?;
    put_in_order(&mut places);
    Ok(Items::from_vec(places))
}

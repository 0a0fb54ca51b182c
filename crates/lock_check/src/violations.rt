// What stands against the members of a target.
ghost use Rattle.std.specs.Prelude.{[], ◌≡◌, ◌++◌, IfOk, OnOk, bytes_eq, map};
ghost use Rattle.std.specs.List.{list_any};
ghost use Rattle.std.specs.Option.{option_copied};
ghost use Rattle.opam_names.specs.ByteOrders.{NeverFallsBy, has_key};
ghost use Rattle.opam_filter.specs.Sets.{Rises};
ghost use Rattle.lock_check.specs.Sharing.{shared_in, spot_class, told_class, whats_in};
ghost use Rattle.lock_check.specs.Violations as violations;
ghost use Rattle.lock_check.specs.Violations.{pkgs_of, told_of};
ghost use Rattle.lock_check.specs.declared.violation.What.TheVariants as kinds;

use crate::sharing::{Spot, class_spots, note_conflicts, sharer};
use crate::{Violation, What, Who};
use opam_filter::holds;
use opam_names::{Items, Name, OutOfMemory, Pkg, Text, has_bytes, order_is_stable};
use opam_package::{Member, Need, Package};
use std::alloc::Global;
use std::collections::BTreeSet;

fn is_need_met(need: &Need, set: &[Pkg]) -> bool
    requires { Rises set.now }
    ensures { result ≡ violations.is_need_met set.now need.now }
{
    holds(&need.runtime, set) && holds(&need.building, set) && holds(&need.full, set)
}

/// Whether all items of `depends` are met in a set.
pub(crate) fn is_met_among(dependent: &Package, set: &[Pkg]) -> bool
    requires { Rises set.now }
    ensures { result ≡ violations.is_met_among set.now dependent.now }
{
    let needs = dependent.items.as_slice();
    for need in needs {
        if !is_need_met(need, set) {
            return false;
        }
    }
    true
}

fn note_unavailable(
    fresh: bool,
    dependent: &Package,
    whats: &mut Items<What>,
) -> Result<(), OutOfMemory>
    ensures { OnOk result (whats.new ≡ whats.old ++ violations.unavailable fresh dependent.now) }
{
    if fresh && !dependent.available {
        return whats.push(What::Unavailable);
    }
    Ok(())
}

fn note_unmet(set: &[Pkg], needs: &[Need], whats: &mut Items<What>) -> Result<(), OutOfMemory>
    requires { Rises set.now }
    ensures { OnOk result (whats.new ≡ whats.old ++ violations.unmet_from set.now 1 needs.now) }
{
    let mut number = 1u32;
    for need in needs {
        if !is_need_met(need, set) {
            whats.push(What::Unmet(number))?;
        }
        number = number.saturating_add(1);
    }
    Ok(())
}

fn note_class(
    alloc: Global,
    class: &Text,
    other: Option<&Pkg>,
    whats: &mut Items<What>,
) -> Result<(), OutOfMemory>
    ensures { OnOk result (whats.new
        ≡ whats.old ++ told_class class.now (option_copied other.entry)) }
{
    match other {
        None => Ok(()),
        Some(other) => {
            let other = other.copy(alloc)?;
            whats.push(What::Class(class.copy(alloc)?, other))
        }
    }
}

fn is_told(told: &BTreeSet<Text>, class: &Text) -> bool
    ensures { result ≡ list_any (bytes_eq class.now) told.now.keys }
{
    told.contains(class)
}

fn note_classes(
    alloc: Global,
    spots: &[Spot],
    dependent: &Package,
    classes: &[Text],
    whats: &mut Items<What>,
) -> Result<(), OutOfMemory>
    requires { NeverFallsBy spot_class spots.now }
    ensures { OnOk result (whats.new
        ≡ whats.old ++ shared_in spots.now dependent.now [] classes.now) }
{
    let mut told = BTreeSet::new(alloc);
    for class in classes {
        if !is_told(&told, class) {
            note_class(alloc, class, sharer(spots, dependent, class), whats)?;
        }
        told.insert(class.copy(alloc)?)?;
    }
    Ok(())
}

fn note_refused(alloc: Global, refused: &[Text], whats: &mut Items<What>) -> Result<(), OutOfMemory>
    ensures { OnOk result (whats.new ≡ whats.old ++ map kinds.Refused refused.now) }
{
    for name in refused {
        whats.push(What::Refused(name.copy(alloc)?))?;
    }
    Ok(())
}

// All that stands against a member, kind by kind.
fn whats_of(
    alloc: Global,
    spots: &[Spot],
    set: &[Pkg],
    fresh: bool,
    dependent: &Package,
) -> Result<Items<What>, OutOfMemory>
    requires rises { Rises set.now }
    requires spots { NeverFallsBy spot_class spots.now }
    ensures { IfOk result (λ whats. whats ≡ whats_in spots.now set.now fresh dependent.now) }
{
    let mut whats = Items::new(alloc);
    note_unavailable(fresh, dependent, &mut whats)?;
    note_unmet(set, dependent.items.as_slice(), &mut whats)?;
    note_conflicts(alloc, set, dependent, &mut whats)?;
    note_classes(
        alloc,
        spots,
        dependent,
        dependent.classes.as_slice(),
        &mut whats,
    )?;
    if fresh {
        note_refused(alloc, dependent.refused.as_slice(), &mut whats)?;
    }
    Ok(whats)
}

fn tell_all(
    alloc: Global,
    pkg: &Pkg,
    whats: Items<What>,
    told: &mut Items<Violation>,
) -> Result<(), OutOfMemory>
    ensures { OnOk result (told.new ≡ told.old ++ map (told_of pkg.now) whats) }
{
    for what in whats.into_vec() {
        let who = Who::Pkg(pkg.copy(alloc)?);
        told.push(Violation { who, what })?;
    }
    Ok(())
}

fn has_name(names: &[Name], name: &Name) -> bool
    requires { NeverFallsBy (λ text. text) names.now }
    ensures { result ≡ list_any (has_key (λ text. text) name.now) names.now }
{
    has_bytes(names, name.as_str().as_bytes())
}

fn is_fresh(fresh: &[Name], member: &Member) -> bool
    requires { NeverFallsBy (λ name. name) fresh.now }
    ensures { result ≡ violations.is_from_repository fresh.now member.now }
{
    has_name(fresh, &member.package.pkg.name)
}

/// What is told already, and then all that stands against members, of which those with fresh names have texts that came from
/// the repository.
pub(crate) fn tell_members(
    alloc: Global,
    members: &[Member],
    set: &[Pkg],
    fresh: &[Name],
    told: &mut Items<Violation>,
) -> Result<(), OutOfMemory>
    requires set { set.now ≡ pkgs_of members.now }
    requires rises { Rises set.now }
    requires fresh { NeverFallsBy (λ name. name) fresh.now }
    ensures { OnOk result (told.new
        ≡ told.old ++ violations.violations_among members.now fresh.now) }
{
    order_is_stable::<Spot>();
    let spots = class_spots(alloc, members)?;
    for member in members {
        let whats = whats_of(
            alloc,
            spots.as_slice(),
            set,
            is_fresh(fresh, member),
            &member.package,
        )?;
        tell_all(alloc, &member.package.pkg, whats, told)?;
    }
    Ok(())
}

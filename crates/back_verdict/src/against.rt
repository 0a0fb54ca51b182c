// Whether an entry stands against a package that is to come back.
ghost use Rattle.std.specs.Prelude.{◌≡◌, ◌∷◌, [], IfOk};
ghost use Rattle.opam_names.specs.ByteOrders.{NeverFallsBy};
ghost use Rattle.journal_text.specs.Parts.{own_name};
ghost use Rattle.switch_state.specs.Sound.{member_pkg};
ghost use Rattle.back_verdict.specs.Backs as backs;
ghost use Rattle.back_verdict.specs.Searches as searches;
ghost use Rattle.back_verdict.specs.Searches.{sorted_texts, sought_of};

use opam_names::{ByteKey, Items, OutOfMemory, Pkg, Text, has_bytes, order_is_stable};
use opam_package::{Member, Package, edges, forbids};
use std::alloc::Global;

/// What an entry may have against the package.
#[derive(Clone, Copy)]
pub(crate) enum Against {
    Conflict,
    Class,
    Need,
}

/// What is looked up of the package: its classes in byte order, and itself alone.
#[derive(Drop)]
pub(crate) struct Sought {
    pub(crate) classes: Items<Text>,
    pub(crate) alone: Items<Pkg>,
}

pub(crate) fn look_up(alloc: Global, old: &Member) -> Result<Sought, OutOfMemory>
    ensures { IfOk result (λ sought. sought ≡ sought_of old.now) }
{
    let classes = sorted_classes(alloc, &old.package)?;
    let mut alone = Items::new(alloc);
    alone.push(old.package.pkg.copy(alloc)?)?;
    Ok(Sought { classes, alone })
}

fn copied_classes(alloc: Global, dependent: &Package) -> Result<Items<Text>, OutOfMemory>
    ensures { IfOk result (λ classes. classes ≡ dependent.now.classes) }
{
    let mut classes = Items::new(alloc);
    for class in dependent.classes.as_slice() {
        classes.push(class.copy(alloc)?)?;
    }
    Ok(classes)
}

/// The classes of a package in byte order.
pub(crate) fn sorted_classes(alloc: Global, dependent: &Package) -> Result<Items<Text>, OutOfMemory>
    ensures { IfOk result (λ classes. classes ≡ sorted_texts dependent.now.classes) }
{
    let mut classes = copied_classes(alloc, dependent)?;
    classes.sort_by_bytes()?;
    Ok(classes)
}

/// Whether an entry stands so against the package.
pub(crate) fn stands_against(
    alloc: Global,
    against: Against,
    old: &Member,
    sought: &Sought,
    entry: &Member,
) -> Result<bool, OutOfMemory>
    requires { sought.now ≡ sought_of old.now }
    ensures { IfOk result (λ stands.
        stands ≡ searches.stands_against against old.now entry.now) }
{
    match against {
        Against::Conflict => Ok(conflicts(old, entry)),
        Against::Class => Ok(shares(old, sought.classes.as_slice(), entry)),
        Against::Need => is_needed_by(alloc, old, sought.alone.as_slice(), entry),
    }
}

fn conflicts(old: &Member, entry: &Member) -> bool
    ensures { result ≡ backs.conflicts old.now entry.now }
{
    forbids(&old.package, &entry.package.pkg) || forbids(&entry.package, &old.package.pkg)
}

// The classes of the package stand in byte order.
fn shares(old: &Member, classes: &[Text], entry: &Member) -> bool
    requires { classes.now ≡ sorted_texts old.now.package.classes }
    ensures { result ≡ backs.shares old.now entry.now }
{
    order_is_stable::<Text>();
    has_one_of(classes, entry.package.classes.as_slice())
}

fn has_one_of(sorted: &[Text], texts: &[Text]) -> bool
    requires { NeverFallsBy own_name sorted.now }
    ensures { result ≡ searches.has_one_of sorted.now texts.now }
{
    for text in texts {
        if has_bytes(sorted, text.key()) {
            return true;
        }
    }
    false
}

fn is_needed_by(
    alloc: Global,
    old: &Member,
    alone: &[Pkg],
    entry: &Member,
) -> Result<bool, OutOfMemory>
    requires { alone.now ≡ member_pkg old.now ∷ [] }
    ensures { IfOk result (λ needed. needed ≡ backs.is_needed_by old.now entry.now) }
{
    Ok(!edges(alloc, &entry.package, alone)?.is_empty())
}

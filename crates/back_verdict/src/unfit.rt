// What the entries have against a package that is to come back.
ghost use Rattle.std.specs.Prelude.{◌≡◌, IfOk};
ghost use Rattle.std.specs.Option.{option_copied};
ghost use Rattle.std.specs.Prelude.{find};
ghost use Rattle.std.specs.List.{list_any};
ghost use Rattle.opam_names.specs.ByteOrders.{NeverFallsBy, has_key};
ghost use Rattle.journal_text.specs.Parts.{own_name};
ghost use Rattle.switch_state.specs.Sound.{NamesDiffer};
ghost use Rattle.back_verdict.specs.Backs as backs;
ghost use Rattle.back_verdict.specs.Backs.{with_last};
ghost use Rattle.back_verdict.specs.Searches as searches;
ghost use Rattle.back_verdict.specs.Searches.{sought_of};

use crate::Why;
use crate::against::{Against, Sought, look_up, sorted_classes};
use crate::least::least_against;
use crate::meeting::is_met;
use opam_names::{ByteKey, OutOfMemory, Text, has_bytes, order_is_stable};
use opam_package::Member;
use std::alloc::Global;

/// The first of what the entries have against the package.
pub(crate) fn why_unfit(
    alloc: Global,
    entries: &[Member],
    old: &Member,
) -> Result<Option<Why>, OutOfMemory>
    requires { NamesDiffer (with_last entries.now old.now) }
    ensures { IfOk result (λ why. why ≡ backs.why_unfit entries.now old.now) }
{
    if !is_met(alloc, entries, old)? {
        return Ok(Some(Why::Unmet));
    }
    let sought = look_up(alloc, old)?;
    why_against(alloc, entries, old, &sought)
}

// What single entries have against it.
fn why_against(
    alloc: Global,
    entries: &[Member],
    old: &Member,
    sought: &Sought,
) -> Result<Option<Why>, OutOfMemory>
    requires { sought.now ≡ sought_of old.now }
    ensures { IfOk result (λ why. why ≡ searches.why_against entries.now old.now) }
{
    match why_conflict(alloc, entries, old, sought)? {
        Some(why) => Ok(Some(why)),
        None => match why_class(alloc, entries, old, sought)? {
            Some(why) => Ok(Some(why)),
            None => why_late(alloc, entries, old, sought),
        },
    }
}

fn why_conflict(
    alloc: Global,
    entries: &[Member],
    old: &Member,
    sought: &Sought,
) -> Result<Option<Why>, OutOfMemory>
    requires { sought.now ≡ sought_of old.now }
    ensures { IfOk result (λ why. why ≡ backs.why_conflict entries.now old.now) }
{
    match least_against(alloc, Against::Conflict, old, sought, entries)? {
        None => Ok(None),
        Some(entry) => Ok(Some(Why::Conflict(entry.package.pkg.copy(alloc)?))),
    }
}

fn why_class(
    alloc: Global,
    entries: &[Member],
    old: &Member,
    sought: &Sought,
) -> Result<Option<Why>, OutOfMemory>
    requires { sought.now ≡ sought_of old.now }
    ensures { IfOk result (λ why. why ≡ backs.why_class entries.now old.now) }
{
    match least_against(alloc, Against::Class, old, sought, entries)? {
        None => Ok(None),
        Some(entry) => class_with(alloc, old, entry),
    }
}

fn why_late(
    alloc: Global,
    entries: &[Member],
    old: &Member,
    sought: &Sought,
) -> Result<Option<Why>, OutOfMemory>
    requires { sought.now ≡ sought_of old.now }
    ensures { IfOk result (λ why. why ≡ backs.why_late entries.now old.now) }
{
    match least_against(alloc, Against::Need, old, sought, entries)? {
        None => Ok(None),
        Some(entry) => Ok(Some(Why::Late(entry.package.pkg.copy(alloc)?))),
    }
}

// The first class of the package that the entry has too.
fn class_with(alloc: Global, old: &Member, entry: &Member) -> Result<Option<Why>, OutOfMemory>
    ensures { IfOk result (λ why. why ≡ backs.class_with old.now entry.now) }
{
    match first_shared(alloc, old, entry)? {
        None => Ok(None),
        Some(class) => {
            let class = class.copy(alloc)?;
            Ok(Some(Why::Class(class, entry.package.pkg.copy(alloc)?)))
        }
    }
}

fn first_shared<'a>(
    alloc: Global,
    old: &'a Member,
    entry: &Member,
) -> Result<Option<&'a Text>, OutOfMemory>
    ensures { IfOk result (λ class. option_copied class ≡ backs.first_shared old.now entry.now) }
{
    order_is_stable::<Text>();
    let sorted = sorted_classes(alloc, &entry.package)?;
    Ok(first_among(old.package.classes.as_slice(), sorted.as_slice()))
}

fn first_among<'a>(texts: &'a [Text], sorted: &[Text]) -> Option<&'a Text>
    requires { NeverFallsBy own_name sorted.now }
    ensures { option_copied result
        ≡ find (λ text. list_any (has_key own_name text) sorted.now) texts.now }
{
    for text in texts {
        if has_bytes(sorted, text.key()) {
            return Some(text);
        }
    }
    None
}

// Of the entries that stand against a package, the one with the least name.
ghost use Rattle.std.specs.Prelude.{◌≡◌, IfOk, filter};
ghost use Rattle.std.specs.Option.{option_copied};
ghost use Rattle.opam_names.specs.ByteOrders.{precedes};
ghost use Rattle.switch_state.specs.Sound.{name_of};
ghost use Rattle.back_verdict.specs.Backs.{least_named};
ghost use Rattle.back_verdict.specs.Searches as searches;
ghost use Rattle.back_verdict.specs.Searches.{sought_of};

use crate::against::{Against, Sought, stands_against};
use opam_names::{ByteKey, OutOfMemory};
use opam_package::Member;
use std::alloc::Global;

/// All entries are looked at, the last first, so that of two with one name the first is told.
pub(crate) fn least_against<'a>(
    alloc: Global,
    against: Against,
    old: &Member,
    sought: &Sought,
    entries: &'a [Member],
) -> Result<Option<&'a Member>, OutOfMemory>
    requires { sought.now ≡ sought_of old.now }
    ensures { IfOk result (λ found. option_copied found
        ≡ least_named (filter (searches.stands_against against old.now) entries.now)) }
{
    let mut least = None;
    for at in (0..entries.len()).rev() {
        let entry = &entries[at];
        if stands_against(alloc, against, old, sought, entry)? {
            least = Some(lesser(entry, least));
        }
    }
    Ok(least)
}

fn lesser<'a>(entry: &'a Member, least: Option<&'a Member>) -> &'a Member
    ensures { result.now ≡ searches.lesser entry.now (option_copied least.entry) }
{
    match least {
        None => entry,
        Some(other) => {
            if has_lesser_name(other, entry) {
                other
            } else {
                entry
            }
        }
    }
}

fn has_lesser_name(one: &Member, other: &Member) -> bool
    ensures { result ≡ precedes (name_of one.now) (name_of other.now) }
{
    one.package.pkg.key().cmp(other.package.pkg.key()).is_lt()
}

// Whether a package is put back.
#![tactic(auto, using(crash_disk::proofs::Effects::read_steps))]

ghost use Rattle.std.specs.Prelude.{◌≡◌, ◌||◌, false, IfNone, IfOk};
ghost use Rattle.std.specs.List.{list_any};
ghost use Rattle.std.specs.Option.{option_or};
ghost use Rattle.std.specs.declared.option.Option.TheVariants.{Some};
ghost use Rattle.journal_text.specs.Parts.{is_own, paths_of};
ghost use Rattle.crash_disk.specs.Disks.{State};
ghost use Rattle.crash_disk.specs.Effects.{FailsReading, OnlyReads};
ghost use Rattle.switch_state.specs.Sound.{NamesDiffer};
ghost use Rattle.change_verdict.specs.Verdicts as verdicts;
ghost use Rattle.back_verdict.specs.BackLaws.{CanBePutBack, CanComeBack};
ghost use Rattle.back_verdict.specs.Backs.{is_text_full, why_away, why_clash, why_full, with_last};

use crate::Why;
use crate::unfit::why_unfit;
use change_verdict::{first_clash, would_be_full};
use crash_disk::{Disk, DiskFault};
use journal_text::Placed;
use opam_package::Member;
use owner_map::Owners;
use std::alloc::Global;
use switch_journal::TEXT_LIMIT;

/// Why a package with these files is not put back behind the entries; None where it is. Each entry is looked at once for each cause.
pub fn back_verdict<D: Disk>(
    alloc: Global,
    disk: &mut D,
    entries: &[Member],
    owners: &Owners,
    old: &Member,
    files: &[Placed],
) -> Result<Option<Why>, DiskFault>
    requires named { NamesDiffer (with_last entries.now old.now) }
    requires free { list_any is_own (paths_of files.now) ≡ false }
    ensures cause { FailsReading D.Disk disk.old disk.new result }
    ensures reads { OnlyReads D.Disk disk.old disk.new }
    ensures told { (s : State) → D.told disk.old ≡ Some s → IfOk result (λ why.
        why ≡ why_away s.files owners.now.owned entries.now old.now files.now) }
    ensures none { IfOk result (λ why. IfNone why
        (CanComeBack owners.now.owned entries.now old.now files.now)) }
{
    match why_unfit(alloc, entries, old)? {
        Some(why) => Ok(Some(why)),
        None => why_in_the_way(alloc, disk, entries, owners, old, files),
    }
}

// What keeps it away that no entry has against it.
fn why_in_the_way<D: Disk>(
    alloc: Global,
    disk: &mut D,
    entries: &[Member],
    owners: &Owners,
    old: &Member,
    files: &[Placed],
) -> Result<Option<Why>, DiskFault>
    requires { list_any is_own (paths_of files.now) ≡ false }
    ensures cause { FailsReading D.Disk disk.old disk.new result }
    ensures reads { OnlyReads D.Disk disk.old disk.new }
    ensures told { (s : State) → D.told disk.old ≡ Some s → IfOk result (λ why.
        why ≡ option_or (why_full owners.now.owned entries.now old.now files.now)
        (why_clash s.files owners.now.owned old.now files.now)) }
    ensures none { IfOk result (λ why. IfNone why
        (CanBePutBack owners.now.owned entries.now old.now files.now)) }
{
    if is_full(entries, owners, old, files) {
        return Ok(Some(Why::Full));
    }
    match first_clash(alloc, disk, owners, &old.package.pkg, files)? {
        Some(reason) => Ok(Some(Why::Clash(reason))),
        None => Ok(None),
    }
}

fn is_full(entries: &[Member], owners: &Owners, old: &Member, files: &[Placed]) -> bool
    ensures { result ≡ (verdicts.would_be_full owners.now.owned files.now
        || is_text_full (with_last entries.now old.now)) }
{
    would_be_full(owners, files.len()) || are_texts_too_long(entries, old)
}

fn are_texts_too_long(entries: &[Member], old: &Member) -> bool
    ensures { result ≡ is_text_full (with_last entries.now old.now) }
{
    let mut room = TEXT_LIMIT;
    for entry in entries {
        if entry.opam.len() > room {
            return true;
        }
        room -= entry.opam.len();
    }
    old.opam.len() > room
}

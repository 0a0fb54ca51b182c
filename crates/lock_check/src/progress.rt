// What was read so far of the packages that an `install` comes to.
ghost use Rattle.std.specs.Prelude.{[], ◌≡◌, ◌<◌, ◌++◌, IfOk, OnErr, OnOk};
ghost use Rattle.std.specs.declared.option.Option.TheVariants.{Some};
ghost use Rattle.opam_names.specs.ByteOrders.{NeverFallsBy, RisesBy};
ghost use Rattle.opam_filter.specs.Sets.{Rises};
ghost use Rattle.lock_check.specs.Chased as chased;
ghost use Rattle.lock_check.specs.Given.{IsGiven};
ghost use Rattle.lock_check.specs.Growth.{AreSame, Awaits, Reaches, is_open, led_to};
ghost use Rattle.lock_check.specs.Needed.{full_names};
ghost use Rattle.lock_check.specs.Progressing.{IsKept, StandsWith, chased_with};
ghost use Rattle.lock_check.specs.declared.answer.Answer.TheVariants.{Known, Unknown};

use crate::growth::{count_new, reach, remove, small_len};
use crate::held::{Held, bound_among, full_names};
use crate::install::starts;
use opam_names::{Buffer, Items, Name, OutOfMemory, Pkg, rising_is_kept, texts_rise};
use opam_package::Member;
use std::alloc::Global;
use std::collections::BTreeSet;

/// What is installed, what the lock binds, and the names that are asked for.
#[derive(Drop)]
pub(crate) struct Sources {
    pub(crate) installed: Items<Held>,
    pub(crate) bound: Items<Pkg>,
    pub(crate) asked: Items<Name>,
}

/// What was read, the names that are needed, those of them that are to be read, and the count of names.
#[derive(Drop)]
pub(crate) struct Progress {
    pub(crate) known: Buffer<Member>,
    pub(crate) unknown: Items<Pkg>,
    pub(crate) needed: BTreeSet<Name>,
    pub(crate) waiting: BTreeSet<Name>,
    pub(crate) count: u32,
}

/// What is needed by what is installed alone.
pub(crate) fn first_progress(alloc: Global, sources: &Sources) -> Result<Progress, OutOfMemory>
    requires bound { Rises sources.now.bound }
    requires held { RisesBy chased.held_name sources.now.installed }
    ensures stands { IfOk result (StandsWith sources.now) }
    ensures known { IfOk result (λ progress. progress.known.items ≡ []) }
    ensures unknown { IfOk result (λ progress. progress.unknown ≡ []) }
{
    texts_rise();
    rising_is_kept::<Name>();
    let bound = sources.bound.as_slice();
    let held = sources.installed.as_slice();
    let starts = starts(alloc, bound, sources.asked.as_slice())?;
    let mut needed = BTreeSet::new(alloc);
    let mut waiting = BTreeSet::new(alloc);
    let fresh = reach(
        alloc,
        bound,
        held,
        starts.as_slice(),
        &mut needed,
        &mut waiting,
    )?;
    let count = count_new(small_len(held), held, fresh.as_slice());
    Ok(Progress {
        known: Buffer::new(alloc),
        unknown: Items::new(alloc),
        needed,
        waiting,
        count,
    })
}

// The bound names in the formulas of a member.
fn leads_of(alloc: Global, bound: &[Pkg], member: &Member) -> Result<Items<Name>, OutOfMemory>
    requires { NeverFallsBy chased.pkg_name bound.now }
    ensures { IfOk result (λ names. names
        ≡ chased.bound_among bound.now (full_names member.now.package)) }
{
    let names = full_names(alloc, &member.package)?;
    bound_among(alloc, bound, names.as_slice())
}

impl Progress {
    // Adds names and all those to which they lead, and makes room for a member.
    fn reach(
        &mut self,
        alloc: Global,
        sources: &Sources,
        names: &[Name],
    ) -> Result<Items<Name>, OutOfMemory>
        requires stands { StandsWith sources.now self.old }
        ensures ok { IfOk result (Reaches names.now
            (led_to sources.now.bound sources.now.installed) self.old.needed.keys self.new.needed.keys) }
        ensures awaits { IfOk result (λ fresh. Awaits
            (is_open sources.now.bound sources.now.installed) fresh
            self.old.waiting.keys self.new.waiting.keys) }
        ensures room { OnOk result (0 < self.new.known.room) }
        ensures kept { IsKept self.old self.new }
        ensures needed { OnErr result (self.new.needed.keys ≡ self.old.needed.keys) }
        ensures waiting { OnErr result (AreSame self.old.waiting.keys self.new.waiting.keys) }
    {
        self.known.reserve(1)?;
        reach(
            alloc,
            sources.bound.as_slice(),
            sources.installed.as_slice(),
            names,
            &mut self.needed,
            &mut self.waiting,
        )
    }

    /// Notes the member that was read next.
    pub(crate) fn take_known(
        &mut self,
        alloc: Global,
        sources: &Sources,
        member: Member,
    ) -> Result<(), OutOfMemory>
        requires stands { StandsWith sources.now self.old }
        requires next { chased.next_of (chased_with sources.now self.old)
            ≡ Some member.package.pkg }
        ensures stands { StandsWith sources.now self.new }
        ensures ok { OnOk result (IsGiven (chased_with sources.now self.old) (Known member)
            (chased_with sources.now self.new)) }
        ensures err { OnErr result (chased_with sources.now self.new
            ≡ chased_with sources.now self.old) }
    {
        texts_rise();
        rising_is_kept::<Name>();
        let name = member.package.pkg.name.copy(alloc)?;
        let names = leads_of(alloc, sources.bound.as_slice(), &member)?;
        let fresh = self.reach(alloc, sources, names.as_slice())?;
        self.count = count_new(self.count, sources.installed.as_slice(), fresh.as_slice());
        self.known.push(member);
        remove(&mut self.waiting, &name);
        Ok(())
    }

    /// Notes that there is no such package.
    pub(crate) fn take_unknown(
        &mut self,
        alloc: Global,
        sources: &Sources,
        pkg: Pkg,
    ) -> Result<(), OutOfMemory>
        requires stands { StandsWith sources.now self.old }
        requires next { chased.next_of (chased_with sources.now self.old) ≡ Some pkg }
        ensures stands { StandsWith sources.now self.new }
        ensures ok { OnOk result (IsGiven (chased_with sources.now self.old) Unknown
            (chased_with sources.now self.new)) }
        ensures err { OnErr result (chased_with sources.now self.new
            ≡ chased_with sources.now self.old) }
    {
        let name = pkg.name.copy(alloc)?;
        self.unknown.push(pkg)?;
        remove(&mut self.waiting, &name);
        Ok(())
    }
}

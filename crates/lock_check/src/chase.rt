// The packages that an `install` comes to, read one after another.
ghost use Rattle.std.specs.Prelude.{[], ◌≡◌, ◌++◌, IfOk, OnErr, OnOk, bytes_eq, map};
ghost use Rattle.std.specs.List.{IsDistinct};
ghost use Rattle.std.specs.Option.{option_copied};
ghost use Rattle.std.specs.declared.option.Option.TheVariants.{None};
ghost use Rattle.opam_names.specs.ByteOrders.{RisesBy};
ghost use Rattle.opam_filter.specs.Sets.{Rises};
ghost use Rattle.lock_check.specs.Chased as chased;
ghost use Rattle.lock_check.specs.Given.{IsGiven};
ghost use Rattle.lock_check.specs.Targets.{member_name};
ghost use Rattle.lock_check.specs.declared.answer.Answer.TheVariants.{Unknown};

use crate::held::{Held, bound_at, hold_all};
use crate::install::{copy_names, copy_pkgs};
use crate::made::{install_target, install_told};
use crate::progress::{Progress, Sources, first_progress};
use crate::{Answer, Lock, Violation};
use opam_names::{Items, Name, OutOfMemory, Pkg, order_is_stable};
use opam_package::{Member, Target};
use std::alloc::Global;
use std::marker::Model;

/// The packages that an `install` of a lock comes to. It asks for those that are not installed one after another, and so
/// finds all names that are needed: those that are asked for, and those that a needed package depends on and the lock binds.
#[derive(Drop)]
pub struct Chase {
    sources: Sources,
    progress: Progress,
}

impl Model for Chase {
    ghost use Rattle.opam_filter.specs.contracts.filter.Filter as filter;
    ghost use Rattle.opam_filter.specs.contracts.formula.Reduced as reduced;
    ghost use Rattle.std.specs.Coded.{codes};
    ghost use Rattle.lock_check.specs.Chased.{Chased};

    ghost Value = { Chased };

    ghost coded = { Prim.hlevel (codes, filter.the_row.coded, reduced.the_row.coded) };

    ghost use Rattle.lock_check.specs.Progressing.{StandsWith, chased_with};

    ghost view = { λ c. chased_with c.sources c.progress };

    ghost invariant = { λ c. StandsWith c.sources c.progress };
}

impl Chase {
    /// Begins with what is installed, what a lock binds and the names that are asked for. Where none is, all that are bound
    /// are asked for.
    pub fn begin(
        alloc: Global,
        installed: &[Member],
        lock: &Lock,
        request: &[Name],
    ) -> Result<Chase, OutOfMemory>
        requires installed { IsDistinct bytes_eq (map member_name installed.now) }
        requires lock { Rises lock.now.bound }
        ensures installed { IfOk result (λ chase. chase.installed
            ≡ chased.held_by_name installed.now) }
        ensures bound { IfOk result (λ chase. chase.bound ≡ lock.now.bound) }
        ensures asked { IfOk result (λ chase. chase.asked ≡ request.now) }
        ensures known { IfOk result (λ chase. chase.known ≡ []) }
        ensures unknown { IfOk result (λ chase. chase.unknown ≡ []) }
        ensures needed { IfOk result chased.IsNeeded }
    {
        let sources = Sources {
            installed: hold_all(alloc, installed)?,
            bound: copy_pkgs(alloc, lock.bound.as_slice())?,
            asked: copy_names(alloc, request)?,
        };
        let progress = first_progress(alloc, &sources)?;
        Ok(Chase { sources, progress })
    }

    /// The package to read next: of those that are needed and bound, are not installed and were not read, the one with the
    /// least name. None exactly where all that are needed are known.
    pub fn next(&self) -> Option<&Pkg>
        ensures next { option_copied result ≡ chased.next_of self.now }
        ensures needed { chased.IsNeeded self.now }
    {
        match self.progress.waiting.first() {
            None => None,
            Some(name) => bound_at(self.sources.bound.as_slice(), name),
        }
    }

    /// How many names are installed or needed. It stands still at the greatest number.
    pub fn count(&self) -> u32
        ensures { result ≡ chased.count_of self.now }
    {
        self.progress.count
    }

    /// Takes what the repository says of the package that is to be read next.
    pub fn give(&mut self, alloc: Global, answer: Answer) -> Result<(), OutOfMemory>
        requires { chased.IsAnswer (chased.next_of self.old) answer }
        ensures installed { self.new.installed ≡ self.old.installed }
        ensures bound { self.new.bound ≡ self.old.bound }
        ensures asked { self.new.asked ≡ self.old.asked }
        ensures known { OnOk result (self.new.known ≡ self.old.known ++ chased.known_in answer) }
        ensures unknown { OnOk result (self.new.unknown
            ≡ self.old.unknown ++ chased.unknown_in (chased.next_of self.old) answer) }
        ensures needed { OnOk result (chased.IsNeeded self.new) }
        ensures err { OnErr result (self.new ≡ self.old) }
    {
        match answer {
            Answer::Known(member) => self.progress.take_known(alloc, &self.sources, member),
            Answer::Unknown => self.give_unknown(alloc),
        }
    }

    fn give_unknown(&mut self, alloc: Global) -> Result<(), OutOfMemory>
        requires { chased.IsAnswer (chased.next_of self.old) Unknown }
        ensures ok { OnOk result (IsGiven self.old Unknown self.new) }
        ensures err { OnErr result (self.new ≡ self.old) }
    {
        let pkg = match self.next() {
            None => unreachable!(),
            Some(pkg) => pkg.copy(alloc)?,
        };
        self.progress.take_unknown(alloc, &self.sources, pkg)
    }

    /// What the switch is to become once all that are needed were read, and what stands against it. The roots that are
    /// handed in are those that the switch has.
    pub fn finish(
        self,
        alloc: Global,
        installed: &[Member],
        roots: &[Name],
    ) -> Result<(Target, Items<Violation>), OutOfMemory>
        requires complete { chased.next_of self ≡ None }
        requires differ { IsDistinct bytes_eq (map member_name installed.now) }
        requires installed { self.installed ≡ chased.held_by_name installed.now }
        ensures target { IfOk result (λ made. made.0
            ≡ chased.install_target self installed.now roots.now) }
        ensures violations { IfOk result (λ made. made.1 ≡ chased.install_violations self made.0) }
        ensures rises { IfOk result (λ made. RisesBy member_name made.0.members) }
        ensures needed { chased.AreReadNeeded self }
    {
        order_is_stable::<Held>();
        let Chase { sources, progress } = self;
        let Progress {
            known,
            unknown,
            needed,
            waiting: _,
            count: _,
        } = progress;
        let known = known.into_items();
        let target = install_target(alloc, &sources, &needed, known, installed, roots)?;
        let told = install_told(alloc, &sources, unknown, &target)?;
        Ok((target, told))
    }
}

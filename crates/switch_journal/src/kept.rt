// What a journal says of a switch, record by record.
ghost use Rattle.std.specs.Prelude.{◌≡◌, [], false, is_some, IfOk};
ghost use Rattle.std.specs.Option.{option_copied};
ghost use Rattle.journal_text.specs.Parts.{AreFree, paths_of};
ghost use Rattle.journal_text.specs.Records.{IsInOrder};
ghost use Rattle.switch_journal.specs.Applying.{applied, are_kept_right, begun, can_come, ended, has_pkg, installed, old_applied, only_if, put_back, removed, with_package, without_package};
ghost use Rattle.switch_journal.specs.Keeping.{asked, closed, if_small, may_begin, may_install, may_put_back, may_remove, meets_any, noted};
ghost use Rattle.switch_journal.specs.Places.{record_path};
ghost use Rattle.switch_journal.specs.Reading.{empty_contents};

use crate::asked::{is_any_back, is_kept, with_done};
use crate::changes::{copy_entries, copy_names, copy_pkgs, installed_names, with_files, without};
use crate::conditions::{
    are_few, are_within, can_come, has_all, has_entry, has_pkg, is_member, may_all_stand,
    names_member, owns_all,
};
use crate::places::record_path_of;
use crate::request::{Done, Open};
use crate::standing::Standing;
use journal_text::{Entry, KeptFiles, Placed, Rec};
use opam_names::{Items, Name, OutOfMemory, Pkg, RelPath};
use owner_map::Owners;
use std::alloc::Global;
use std::marker::Model;

/// What a journal says of a switch: what is installed, in the order of installation, whose each path is, what was asked for, and
/// the request that is open.
#[derive(Drop)]
pub struct Kept {
    pub(crate) standing: Items<Standing>,
    pub(crate) owners: Owners,
    pub(crate) roots: Items<Name>,
    pub(crate) request: Option<Open>,
}

impl Model for Kept {
    ghost use Rattle.switch_journal.specs.Contents.{Contents};

    ghost Value = { Contents };

    ghost view = { λ k. record {
      standing = k.standing;
      owned = k.owners.owned;
      roots = k.roots;
      request = k.request;
    } };
}

impl Kept {
    /// Nothing is installed.
    pub fn empty(alloc: Global) -> Kept
        ensures { result ≡ empty_contents }
    {
        Kept {
            standing: Items::new(alloc),
            owners: Owners::empty(alloc),
            roots: Items::new(alloc),
            request: None,
        }
    }

    /// What is installed, in the order of installation.
    pub fn standing(&self) -> &[Standing]
        ensures { result.now ≡ self.now.standing }
    {
        self.standing.as_slice()
    }

    /// Whose each path is.
    pub fn owners(&self) -> &Owners
        ensures { result.now.owned ≡ self.now.owned }
    {
        &self.owners
    }

    /// What was asked for.
    pub fn roots(&self) -> &[Name]
        ensures { result.now ≡ self.now.roots }
    {
        self.roots.as_slice()
    }

    /// The request that is open.
    pub fn request(&self) -> Option<&Open>
        ensures { option_copied result ≡ self.now.request }
    {
        self.request.as_ref()
    }

    /// All of it, handed out without a copy.
    pub fn into_parts(self) -> (Items<Standing>, Owners, Items<Name>, Option<Open>)
        ensures standing { result.0 ≡ self.standing }
        ensures owned { result.1.owned ≡ self.owned }
        ensures roots { result.2 ≡ self.roots }
        ensures request { result.3 ≡ self.request }
    {
        let Kept {
            standing,
            owners,
            roots,
            request,
        } = self;
        (standing, owners, roots, request)
    }

    /// What is said after the record with this number; None exactly where it cannot be applied.
    pub fn apply(self, alloc: Global, number: u64, entry: &Rec) -> Result<Option<Kept>, OutOfMemory>
        requires { IsInOrder entry.now }
        ensures { IfOk result (λ after.
            after ≡ applied number (record_path number) entry.now self) }
    {
        let from = record_path_of(alloc, number)?;
        match entry {
            Rec::Install { pkg, opam, files } => {
                self.install(alloc, from, pkg, opam.as_slice(), files.as_slice())
            }
            Rec::PutBack { pkg, opam, files } => {
                self.put_back(alloc, from, pkg, opam.as_slice(), files.as_slice())
            }
            Rec::Remove { pkg, kept } => self.remove(alloc, number, pkg, kept),
            Rec::Begin {
                roots,
                target,
                removals,
            } => self.begin(
                alloc,
                from,
                roots.as_slice(),
                target.as_slice(),
                removals.as_slice(),
            ),
            Rec::End => Ok(self.end()),
        }
    }

    /// The same of a record in an old journal, which has no requests.
    pub fn apply_old(
        self,
        alloc: Global,
        number: u64,
        entry: &Rec,
    ) -> Result<Option<Kept>, OutOfMemory>
        requires { IsInOrder entry.now }
        ensures { IfOk result (λ after.
            after ≡ old_applied (record_path number) entry.now self) }
    {
        match entry {
            Rec::Install { pkg, opam, files } => {
                let from = record_path_of(alloc, number)?;
                self.install_old(alloc, from, pkg, opam.as_slice(), files.as_slice())
            }
            Rec::Remove { pkg, .. } => Ok(self.remove_old(pkg)),
            Rec::PutBack { .. } => Ok(None),
            Rec::Begin { .. } => Ok(None),
            Rec::End => Ok(None),
        }
    }

    fn install_old(
        self,
        alloc: Global,
        from: RelPath,
        pkg: &Pkg,
        opam: &[u8],
        files: &[Placed],
    ) -> Result<Option<Kept>, OutOfMemory>
        requires { AreFree (paths_of files.now) }
        ensures { IfOk result (λ after. after ≡ only_if (can_come pkg.now files.now self)
            (with_package from pkg.now opam.now files.now self)) }
    {
        if !self.can_come(pkg, files)? {
            return Ok(None);
        }
        let after = self.with_package(alloc, from, pkg, opam, files)?;
        Ok(after.if_small())
    }

    fn remove_old(self, pkg: &Pkg) -> Option<Kept>
        ensures { result ≡ only_if (has_pkg self pkg.now) (without_package pkg.now self) }
    {
        if !has_pkg(self.standing.as_slice(), pkg) {
            return None;
        }
        self.without_package(pkg).if_small()
    }

    fn install(
        self,
        alloc: Global,
        from: RelPath,
        pkg: &Pkg,
        opam: &[u8],
        files: &[Placed],
    ) -> Result<Option<Kept>, OutOfMemory>
        requires { AreFree (paths_of files.now) }
        ensures { IfOk result (λ after. after ≡
            installed from pkg.now opam.now files.now self self.request) }
    {
        if !self.may_install(pkg, opam, files)? {
            return Ok(None);
        }
        let what = Done::Installed(pkg.copy(alloc)?);
        let after = self.with_package(alloc, from, pkg, opam, files)?;
        Ok(after.noted(what)?.if_small())
    }

    fn put_back(
        self,
        alloc: Global,
        from: RelPath,
        pkg: &Pkg,
        opam: &[u8],
        files: &[Placed],
    ) -> Result<Option<Kept>, OutOfMemory>
        requires { AreFree (paths_of files.now) }
        ensures { IfOk result (λ after. after ≡
            put_back from pkg.now opam.now files.now self self.request) }
    {
        if !self.may_put_back(pkg, files)? {
            return Ok(None);
        }
        let what = Done::PutBack(pkg.copy(alloc)?);
        let after = self.with_package(alloc, from, pkg, opam, files)?;
        Ok(after.noted(what)?.if_small())
    }

    fn remove(
        self,
        alloc: Global,
        number: u64,
        pkg: &Pkg,
        kept: &Option<KeptFiles>,
    ) -> Result<Option<Kept>, OutOfMemory>
        ensures { IfOk result (λ after. after ≡
            removed number pkg.now kept.now self self.request) }
    {
        if !self.may_remove(pkg, kept) {
            return Ok(None);
        }
        let what = Done::Removed {
            pkg: pkg.copy(alloc)?,
            number,
            kept: kept.is_some(),
        };
        Ok(self.without_package(pkg).noted(what)?.if_small())
    }

    fn begin(
        self,
        alloc: Global,
        from: RelPath,
        roots: &[Name],
        target: &[Entry],
        removals: &[Pkg],
    ) -> Result<Option<Kept>, OutOfMemory>
        ensures { IfOk result (λ after. after ≡
            begun from roots.now target.now removals.now self self.request) }
    {
        if !self.may_begin(target, removals) {
            return Ok(None);
        }
        let request = Open {
            from,
            target: copy_entries(alloc, target)?,
            removals: copy_pkgs(alloc, removals)?,
            done: Items::new(alloc),
        };
        let roots = copy_names(alloc, roots)?;
        Ok(self.with_request(roots, request).if_small())
    }

    fn with_request(self, roots: Items<Name>, request: Open) -> Kept
        requires { request.done ≡ [] }
        ensures { result ≡ asked request.from roots request.target request.removals self }
    {
        Kept {
            standing: self.standing,
            owners: self.owners,
            roots,
            request: Some(request),
        }
    }

    #[tactic(auto, using(crate::proofs::SaidWhen::end_when))]
    fn end(self) -> Option<Kept>
        ensures { result ≡ ended self self.request }
    {
        if self.is_asked() {
            self.closed().if_small()
        } else {
            None
        }
    }

    fn is_asked(&self) -> bool
        ensures { result ≡ is_some self.now.request }
    {
        self.request.is_some()
    }

    // No request is open, and names that are not installed were not asked for.
    fn closed(self) -> Kept
        ensures { result ≡ closed self }
    {
        let roots = installed_names(self.roots, self.standing.as_slice());
        Kept {
            standing: self.standing,
            owners: self.owners,
            roots,
            request: None,
        }
    }

    fn can_come(&self, pkg: &Pkg, files: &[Placed]) -> Result<bool, OutOfMemory>
        ensures { IfOk result (λ can. can ≡ can_come pkg.now files.now self.now) }
    {
        can_come(self.standing.as_slice(), &self.owners, pkg, files)
    }

    fn may_install(&self, pkg: &Pkg, opam: &[u8], files: &[Placed]) -> Result<bool, OutOfMemory>
        ensures { IfOk result (λ may. may ≡
            may_install pkg.now opam.now files.now self.now self.now.request) }
    {
        match &self.request {
            None => Ok(false),
            Some(request) => {
                let is_time = request.are_removed() && !is_any_back(request.done.as_slice());
                if !(is_time && is_member(request.target.as_slice(), pkg, opam)) {
                    return Ok(false);
                }
                self.can_come(pkg, files)
            }
        }
    }

    fn may_put_back(&self, pkg: &Pkg, files: &[Placed]) -> Result<bool, OutOfMemory>
        ensures { IfOk result (λ may. may ≡
            may_put_back pkg.now files.now self.now self.now.request) }
    {
        match &self.request {
            None => Ok(false),
            Some(request) => {
                let was_removed = request.are_removed() && is_kept(request.done.as_slice(), pkg);
                let is_member = names_member(request.target.as_slice(), &pkg.name);
                if !(was_removed && is_member && request.is_before_all_back(pkg)) {
                    return Ok(false);
                }
                self.can_come(pkg, files)
            }
        }
    }

    fn may_remove(&self, pkg: &Pkg, kept: &Option<KeptFiles>) -> bool
        ensures { result ≡ may_remove pkg.now kept.now self.now self.now.request }
    {
        match &self.request {
            None => false,
            Some(request) => {
                let comes = request.is_next(pkg) && has_pkg(self.standing.as_slice(), pkg);
                comes && self.is_kept_right(pkg, kept)
            }
        }
    }

    // What a removal keeps is the installed opam text, and files at paths that the package owns.
    fn is_kept_right(&self, pkg: &Pkg, kept: &Option<KeptFiles>) -> bool
        ensures { result ≡ are_kept_right pkg.now kept.now self.now }
    {
        match kept {
            None => true,
            Some(kept) => {
                let same = has_entry(self.standing.as_slice(), pkg, kept.opam.as_slice());
                same && owns_all(&self.owners, pkg, kept.files.as_slice())
            }
        }
    }

    fn may_begin(&self, target: &[Entry], removals: &[Pkg]) -> bool
        ensures { result ≡ may_begin target.now removals.now self.now self.now.request }
    {
        if self.request.is_some() {
            return false;
        }
        let there = has_all(self.standing.as_slice(), removals);
        let stand = may_all_stand(self.standing.as_slice(), target, removals);
        there && stand && are_few(target)
    }

    // A package comes last, with its files.
    fn with_package(
        self,
        alloc: Global,
        from: RelPath,
        pkg: &Pkg,
        opam: &[u8],
        files: &[Placed],
    ) -> Result<Kept, OutOfMemory>
        requires free { meets_any self.owned (paths_of files.now) ≡ false }
        requires apart { AreFree (paths_of files.now) }
        ensures { IfOk result (λ after. after ≡
            with_package from pkg.now opam.now files.now self) }
    {
        let owners = with_files(self.owners, alloc, pkg, files)?;
        let entry = Entry {
            pkg: pkg.copy(alloc)?,
            opam: Items::from_slice(alloc, opam)?,
        };
        let mut standing = self.standing;
        standing.push(Standing { entry, from })?;
        Ok(Kept {
            standing,
            owners,
            roots: self.roots,
            request: self.request,
        })
    }

    // A package goes, with its paths.
    fn without_package(self, pkg: &Pkg) -> Kept
        ensures { result ≡ without_package pkg.now self }
    {
        let mut owners = self.owners;
        owners.drop_owner(pkg);
        Kept {
            standing: without(self.standing, pkg),
            owners,
            roots: self.roots,
            request: self.request,
        }
    }

    // The open request has done this.
    fn noted(self, what: Done) -> Result<Kept, OutOfMemory>
        ensures { IfOk result (λ after. after ≡ noted what self) }
    {
        let Kept {
            standing,
            owners,
            roots,
            request,
        } = self;
        let request = with_done(request, what)?;
        Ok(Kept {
            standing,
            owners,
            roots,
            request,
        })
    }

    // The same, where it is within the limits.
    fn if_small(self) -> Option<Kept>
        ensures { result ≡ if_small self }
    {
        if are_within(self.standing.as_slice(), self.owners.len()) {
            Some(self)
        } else {
            None
        }
    }
}

// What an open request has done, and what it lets come next.
ghost use Rattle.std.specs.Prelude.{◌≡◌, IfOk};
ghost use Rattle.std.specs.List.{list_any};
ghost use Rattle.std.specs.Option.{option_map};
ghost use Rattle.switch_journal.specs.Applying.{and_done, are_removed, is_before_all_back, is_kept_removal, is_next, is_put_back, next_removal, puts_back, removed_count};

use crate::conditions::same_pkg;
use crate::request::{Done, Open};
use opam_names::{OutOfMemory, Pkg};

impl Open {
    // How many of its removals are done.
    fn removed_count(&self) -> usize
        ensures { result ≡ removed_count self.now }
    {
        let mut count = 0;
        for what in self.done.as_slice() {
            match what {
                Done::Removed { .. } => count += 1,
                Done::Installed(_) => {}
                Done::PutBack(_) => {}
            }
        }
        count
    }

    // Whether all of its removals are done.
    pub(crate) fn are_removed(&self) -> bool
        ensures { result ≡ are_removed self.now }
    {
        self.removed_count() == self.removals.len()
    }

    // Whether this package is the removal that comes next.
    pub(crate) fn is_next(&self, pkg: &Pkg) -> bool
        ensures { result ≡ is_next pkg.now (next_removal self.now) }
    {
        match self.removals.get(self.removed_count()) {
            None => false,
            Some(next) => same_pkg(next, pkg),
        }
    }

    // Whether it stands in the removals before all that were put back.
    pub(crate) fn is_before_all_back(&self, pkg: &Pkg) -> bool
        ensures { result ≡ is_before_all_back pkg.now self.now }
    {
        for removal in self.removals.as_slice() {
            if is_back(self.done.as_slice(), removal) {
                return false;
            }
            if same_pkg(removal, pkg) {
                return true;
            }
        }
        true
    }
}

// An open request has done one thing more.
pub(crate) fn with_done(request: Option<Open>, what: Done) -> Result<Option<Open>, OutOfMemory>
    ensures { IfOk result (λ after. after ≡ option_map (and_done what) request) }
{
    match request {
        None => Ok(None),
        Some(request) => {
            let mut request = request;
            request.done.push(what)?;
            Ok(Some(request))
        }
    }
}

// Whether a package was put back.
pub(crate) fn is_any_back(done: &[Done]) -> bool
    ensures { result ≡ list_any is_put_back done.now }
{
    for what in done {
        match what {
            Done::PutBack(_) => return true,
            Done::Removed { .. } => {}
            Done::Installed(_) => {}
        }
    }
    false
}

// Whether this package was put back.
fn is_back(done: &[Done], pkg: &Pkg) -> bool
    ensures { result ≡ list_any (puts_back pkg.now) done.now }
{
    for what in done {
        match what {
            Done::PutBack(back) => {
                if same_pkg(back, pkg) {
                    return true;
                }
            }
            Done::Removed { .. } => {}
            Done::Installed(_) => {}
        }
    }
    false
}

// Whether this package was removed, with its files kept.
pub(crate) fn is_kept(done: &[Done], pkg: &Pkg) -> bool
    ensures { result ≡ list_any (is_kept_removal pkg.now) done.now }
{
    for what in done {
        match what {
            Done::Removed {
                pkg: gone,
                kept,
                ..
            } => {
                if *kept && same_pkg(gone, pkg) {
                    return true;
                }
            }
            Done::Installed(_) => {}
            Done::PutBack(_) => {}
        }
    }
    false
}

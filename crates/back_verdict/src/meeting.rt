// Whether what a package depends on when it runs is installed with it.
ghost use Rattle.std.specs.Prelude.{◌≡◌, IfOk};
ghost use Rattle.opam_filter.specs.Sets.{Rises};
ghost use Rattle.switch_state.specs.Sound as sound;
ghost use Rattle.switch_state.specs.Sound.{NamesDiffer, member_pkgs};
ghost use Rattle.back_verdict.specs.Backs as backs;
ghost use Rattle.back_verdict.specs.Backs.{with_last};

use opam_filter::{holding_is_monotone, holds};
use opam_names::{Items, OutOfMemory, Pkg, order_is_stable};
use opam_package::{Member, Package};
use std::alloc::Global;

/// Whether what the package depends on when it runs holds of the entries with it.
pub(crate) fn is_met(alloc: Global, entries: &[Member], old: &Member) -> Result<bool, OutOfMemory>
    requires { NamesDiffer (with_last entries.now old.now) }
    ensures { IfOk result (λ met. met ≡ backs.is_met entries.now old.now) }
{
    holding_is_monotone();
    order_is_stable::<Pkg>();
    let mut set = pkgs_with(alloc, entries, old)?;
    set.sort_by_bytes()?;
    Ok(runs_on(set.as_slice(), &old.package))
}

fn pkgs_with(alloc: Global, entries: &[Member], old: &Member) -> Result<Items<Pkg>, OutOfMemory>
    ensures { IfOk result (λ pkgs. pkgs ≡ member_pkgs (with_last entries.now old.now)) }
{
    let mut pkgs = pkgs_of(alloc, entries)?;
    pkgs.push(old.package.pkg.copy(alloc)?)?;
    Ok(pkgs)
}

fn pkgs_of(alloc: Global, members: &[Member]) -> Result<Items<Pkg>, OutOfMemory>
    ensures { IfOk result (λ pkgs. pkgs ≡ member_pkgs members.now) }
{
    let mut pkgs = Items::new(alloc);
    for member in members {
        pkgs.push(member.package.pkg.copy(alloc)?)?;
    }
    Ok(pkgs)
}

fn runs_on(set: &[Pkg], dependent: &Package) -> bool
    requires { Rises set.now }
    ensures { result ≡ sound.runs_on set.now dependent.now }
{
    for need in dependent.items.as_slice() {
        if !holds(&need.runtime, set) {
            return false;
        }
    }
    true
}

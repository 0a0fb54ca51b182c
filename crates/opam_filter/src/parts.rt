// The parts of a scope.
ghost use Rattle.std.specs.Prelude.{◌≡◌, ◌&&◌, IfOk, length, map, nat_le};
ghost use Rattle.std.specs.List.{list_all};
ghost use Rattle.syntax_trees.specs.Words.{scope_parts};
ghost use Rattle.opam_filter.specs.Scopes.{is_package_part};

use opam_names::{Name, OutOfMemory};
use std::alloc::Global;

/// What stands between the `+` of a scope.
pub(crate) fn scope_parts(alloc: Global, scope: &str) -> Result<Vec<&str>, OutOfMemory>
    ensures { IfOk result (λ parts.
        map (λ part. part.now) parts.items ≡ scope_parts scope.now) }
{
    Ok(scope.split('+').collect(alloc)?)
}

/// Whether they are two or more, each `_` or the name of a package.
pub(crate) fn are_joined(parts: &[&str]) -> bool
    ensures { result ≡ (nat_le 2 (length (map (λ part. part.now) parts.now))
        && list_all is_package_part (map (λ part. part.now) parts.now)) }
{
    parts.len() >= 2 && parts.iter().all(|part| is_package_part(part))
}

fn is_package_part(part: &str) -> bool
    ensures { result ≡ is_package_part part.now }
{
    part == "_" || Name::is_name(part.as_bytes())
}

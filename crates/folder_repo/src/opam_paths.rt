// Where opam files stand in a repository.
ghost use Rattle.std.specs.Prelude.{◌≡◌, IfOk, string_bytes};
ghost use Rattle.folder_repo.specs.OpamPaths.{path_in_repo};

use opam_names::{OutOfMemory, Pkg};
use std::alloc::Global;

/// The path of the opam file of a package in the repository at this path.
pub(crate) fn opam_path(alloc: Global, repo: &str, pkg: &Pkg) -> Result<String, OutOfMemory>
    ensures { IfOk result (λ path. string_bytes path ≡ path_in_repo repo.now pkg.now) }
{
    let full = pkg.print(alloc)?;
    let mut path = String::from_str(alloc, repo)?;
    path.push_str("/packages/")?;
    path.push_str(pkg.name.as_str())?;
    path.push_str("/")?;
    path.push_str(full.as_str())?;
    path.push_str("/opam")?;
    Ok(path)
}

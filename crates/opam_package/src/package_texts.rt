// Packages of the texts of opam files.
ghost use Rattle.std.specs.Prelude.{◌≡◌, ◌≤◌, IfErr, IfOk, length};
ghost use Rattle.opam_package.specs.PackageTexts as texts;
ghost use Rattle.opam_package.specs.PackageTexts.{IsPackageFault, IsPackageText};

use crate::limits::OPAM_LIMIT;
use crate::reading::package_of;
use crate::{Package, PackageFault};
use opam_filter::Vars;
use opam_names::Pkg;
use opam_syntax::read_file;
use std::alloc::Global;
use syntax_trees::SyntaxFault;

/// The package that the text of an opam file is of; a fault of the syntax comes first, then the first fault of the file
/// by the places where they stand (opam manual, file format: opam).
pub fn read_package(
    alloc: Global,
    bytes: &[u8],
    pkg: &Pkg,
    globals: &Vars,
) -> Result<Package, PackageFault>
    requires { length bytes.now ≤ OPAM_LIMIT }
    ensures ok { IfOk result (λ found. IsPackageText bytes.now pkg.now globals.now found) }
    ensures err { IfErr result (λ fault. IsPackageFault bytes.now pkg.now fault) }
{
    match read_file(alloc, bytes) {
        Ok(file) => package_of(alloc, &file, pkg, globals),
        Err(fault) => Err(told_syntax(fault)),
    }
}

fn told_syntax(fault: SyntaxFault) -> PackageFault
    ensures { result ≡ texts.told_syntax fault }
{
    match fault {
        SyntaxFault::Memory => PackageFault::Memory,
        _ => PackageFault::Syntax(fault),
    }
}

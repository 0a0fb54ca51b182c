// What is found in the text of an opam file.
ghost use Rattle.std.specs.Prelude.{[], ◌≡◌, ◌≢◌, ◌≤◌, ◌∷◌, IfOk, OnOk, length};
ghost use Rattle.syntax_trees.specs.declared.fault.SyntaxFault.TheVariants.{Memory};
ghost use Rattle.opam_lint.specs.Linted as linted;
ghost use Rattle.opam_lint.specs.Linted.{IsLinted};

use crate::findings::lint_file;
use crate::{Finding, Problem};
use opam_names::OutOfMemory;
use opam_package::{OPAM_LIMIT, PackageFault};
use opam_syntax::read_file;
use std::alloc::Global;
use syntax_trees::SyntaxFault;

fn syntax_code(fault: SyntaxFault) -> u8
    ensures { result ≡ linted.syntax_code fault }
{
    match fault {
        SyntaxFault::Doubled { .. } => 2,
        _ => 1,
    }
}

fn syntax_place(fault: SyntaxFault) -> u32
    ensures { result ≡ linted.syntax_place fault }
{
    match fault {
        SyntaxFault::Ended { at }
        | SyntaxFault::Stray { at }
        | SyntaxFault::Deep { at }
        | SyntaxFault::Doubled { at } => at,
        SyntaxFault::Memory => 0,
    }
}

// Why a text is no file is found alone; want of memory is no such thing.
fn lint_syntax(alloc: Global, fault: SyntaxFault) -> Result<Vec<Finding>, OutOfMemory>
    ensures value { IfOk result (λ all. all.items ≡ linted.syntax_finding fault ∷ []) }
    ensures known { OnOk result (fault ≢ Memory) }
{
    match fault {
        SyntaxFault::Memory => Err(OutOfMemory),
        _ => {
            let mut findings = Vec::new(alloc);
            findings.push(Finding {
                code: syntax_code(fault),
                at: syntax_place(fault),
                problem: Problem::Fault(PackageFault::Syntax(fault)),
            })?;
            Ok(findings)
        }
    }
}

/// What is found in the text of an opam file, by place, then code: why it is none, or else its first fault, what keeps the
/// package from being installed, what is not known, and what is missing (opam manual, file format: opam).
pub fn lint(alloc: Global, bytes: &[u8]) -> Result<Vec<Finding>, OutOfMemory>
    requires { length bytes.now ≤ OPAM_LIMIT }
    ensures found { IfOk result (λ findings. IsLinted bytes.now findings.items) }
{
    match read_file(alloc, bytes) {
        Ok(file) => lint_file(alloc, &file),
        Err(fault) => lint_syntax(alloc, fault),
    }
}

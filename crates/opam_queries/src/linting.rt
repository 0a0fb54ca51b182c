// What is wrong with an opam file.
ghost use Rattle.std.specs.Prelude.{◌≡◌, ◌≤◌, IfOk, Ok, length};
ghost use Rattle.std.specs.FinMap.{get};
ghost use Rattle.std.specs.List.{list_any};
ghost use Rattle.std.specs.declared.option.Option.TheVariants.{Some};
ghost use Rattle.opam_lint.specs.FindingTexts.{is_error};
ghost use Rattle.opam_package.specs.declared.limits.TheConstants.{OPAM_LIMIT};
ghost use Rattle.opam_queries.specs.Asking.{AsksHost, IsLintOf, LintsBytes};
ghost use Rattle.opam_queries.specs.Replies.{IsLintAnswer, end_of_findings, lint_answer};

use crate::asking::{not_found, too_long};
use opam_lint::{Finding, findings_text, lint};
use opam_names::{Items, OutOfMemory};
use opam_package::OPAM_LIMIT;
use outside_io::calls::read;
use outside_io::{Found, Host, HostFault};
use run_answers::{Answer, End, Stop};
use std::alloc::Global;

// What is found in the file at this path.
pub(crate) fn lint_file<H: Host>(host: &mut H, alloc: Global, file: &str) -> Result<Answer, Stop>
    ensures { AsksHost H.Host (λ files. IsLintAnswer file.now (get files file.now))
        host.old host.new result }
{
    let found = read(host, alloc, file, OPAM_LIMIT as u64);
    lint_found(alloc, file, found)
}

fn lint_found(alloc: Global, file: &str, found: Result<Found, HostFault>) -> Result<Answer, Stop>
    ensures { IsLintOf file.now found result }
{
    match found {
        Ok(Found::Absent) => not_found(alloc, file),
        Ok(Found::TooLong) => too_long(alloc, file),
        Ok(Found::Bytes(bytes)) => lint_bytes(alloc, file, bytes.as_slice()),
        Err(HostFault::Failed) => Err(Stop::HostFailed),
        Err(HostFault::Memory) => Err(Stop::Memory),
    }
}

// The length is tested once more, since a host may give what it likes.
#[tactic(auto, using(crate::proofs::Asked::lint_steps))]
fn lint_bytes(alloc: Global, file: &str, bytes: &[u8]) -> Result<Answer, Stop>
    ensures { LintsBytes file.now bytes.now result }
{
    if bytes.len() > OPAM_LIMIT {
        return too_long(alloc, file);
    }
    match lint_within(alloc, file, bytes) {
        Ok(answer) => Ok(answer),
        Err(OutOfMemory) => Err(Stop::Memory),
    }
}

fn lint_within(alloc: Global, file: &str, bytes: &[u8]) -> Result<Answer, OutOfMemory>
    requires { length bytes.now ≤ OPAM_LIMIT }
    ensures { IfOk result (λ answer. IsLintAnswer file.now (Some bytes.now) (Ok answer)) }
{
    let findings = lint(alloc, bytes)?;
    lint_answer(alloc, file, findings.as_slice())
}

fn lint_answer(alloc: Global, file: &str, findings: &[Finding]) -> Result<Answer, OutOfMemory>
    ensures { IfOk result (λ answer. answer ≡ lint_answer file.now findings.now) }
{
    let text = findings_text(alloc, file, findings)?;
    Ok(Answer {
        end: end_of_findings(has_error(findings)),
        text: Items::from_vec(text),
    })
}

fn end_of_findings(has_error: bool) -> End
    ensures { result ≡ end_of_findings has_error }
{
    if has_error { End::Findings } else { End::Done }
}

fn has_error(findings: &[Finding]) -> bool
    ensures { result ≡ list_any is_error findings.now }
{
    findings.iter().any(|finding| finding.is_error())
}

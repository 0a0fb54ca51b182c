// What is said of faults and findings.
ghost use Rattle.std.specs.Prelude.{◌≡◌, IfOk, OnOk, ◌++◌, string_bytes};
ghost use Rattle.std.specs.List.{flat_map};
ghost use Rattle.opam_lint.specs.FindingTexts as texts;

use crate::{Finding, Problem};
use opam_filter::FilterFault;
use opam_names::OutOfMemory;
use opam_package::PackageFault;
use std::alloc::Global;
use syntax_trees::SyntaxFault;

fn syntax_text(fault: SyntaxFault) -> &'static str
    ensures { result.now ≡ texts.syntax_text fault }
{
    match fault {
        SyntaxFault::Ended { .. } => "unexpected end",
        SyntaxFault::Stray { .. } => "unexpected byte",
        SyntaxFault::Deep { .. } => "nested too deep",
        SyntaxFault::Doubled { .. } => "doubled item",
        SyntaxFault::Memory => "",
    }
}

fn filter_text(fault: FilterFault) -> &'static str
    ensures { result.now ≡ texts.filter_text fault }
{
    match fault {
        FilterFault::NotAFilter { .. } => "not a filter",
        FilterFault::NotAFormula { .. } => "not a formula",
        FilterFault::NotText { .. } => "not a text",
        FilterFault::BadName { .. } => "bad package name",
        FilterFault::NegatedVersion { .. } => "negated version",
        FilterFault::Memory => "",
    }
}

/// What is wrong with a text that is no opam file of a package. Want of memory has no text.
pub fn fault_text(fault: PackageFault) -> &'static str
    ensures { result.now ≡ texts.fault_text fault }
{
    match fault {
        PackageFault::Syntax(fault) => syntax_text(fault),
        PackageFault::Filter(fault) => filter_text(fault),
        PackageFault::WrongKind { .. } => "wrong kind of value",
        PackageFault::NotText { .. } => "not a text",
        PackageFault::Mismatch { .. } => "does not match the folder",
        PackageFault::OpamVersion { .. } => "unknown opam version",
        PackageFault::TooMany { .. } => "too many",
        PackageFault::EnvOperator { .. } => "bad update",
        PackageFault::Unsafe { .. } => "unsafe path",
        PackageFault::Memory => "",
    }
}

impl Finding {
    /// What is said of it.
    pub fn text(&self) -> &'static str
        ensures { result.now ≡ texts.problem_text self.now.problem }
    {
        match self.problem {
            Problem::Fault(fault) => fault_text(fault),
            Problem::NoFormat => "no opam-version",
            Problem::Refused => "refused field",
            Problem::Unknown => "unknown field",
            Problem::NoSynopsis => "no synopsis",
            Problem::NoMaintainer => "no maintainer",
            Problem::EmptyCommand => "empty command",
        }
    }

    /// Whether it is an error, and not only something that could be better.
    pub fn is_error(&self) -> bool
        ensures { result ≡ texts.is_error self.now }
    {
        self.code < 20
    }
}

fn add_line(
    alloc: Global,
    text: &mut Vec<u8>,
    file: &str,
    finding: &Finding,
) -> Result<(), OutOfMemory>
    ensures { OnOk result (text.new.items
        ≡ text.old.items ++ texts.finding_line file.now finding.now) }
{
    let (code, at, said) = (finding.code, finding.at, finding.text());
    let line = format!(in alloc; "{file}: {code} at {at}: {said}\n")?;
    text.extend_from_slice(line.as_bytes())?;
    Ok(())
}

/// A line for each finding in the file of this name, or one that says that there is none.
pub fn findings_text(
    alloc: Global,
    file: &str,
    findings: &[Finding],
) -> Result<Vec<u8>, OutOfMemory>
    ensures { IfOk result (λ text. text.items ≡ texts.findings_text file.now findings.now) }
{
    if findings.is_empty() {
        return Ok(format!(in alloc; "{file}: no findings\n")?.into_bytes());
    }
    let mut text = Vec::new(alloc);
    for finding in findings {
        add_line(alloc, &mut text, file, finding)?;
    }
    Ok(text)
}

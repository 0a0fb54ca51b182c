// Calls of `opam_lint`. Up to eight findings are shown by code and place, of more their number; a fault is shown with its text.
use opam_lint::{Finding, Problem, findings_text, lint};
use opam_package::OPAM_LIMIT;
use row_script::fault::Fault;
use row_script::lexer::Word;
use row_script::script::Call;
use row_script::show::{plain, quoted};
use std::alloc::Global;

/// More findings are counted.
const SHOWN: usize = 8;

pub fn answer(alloc: Global, call: &Call) -> Result<String, Fault> {
    let words = call.words.as_slice();
    match call.name.as_str() {
        "lint" => show(alloc, words),
        "findings_text" => lines(alloc, words),
        "errors" => errors(alloc, words),
        _ => Err(Fault::Unknown),
    }
}

fn show(alloc: Global, words: &[Word]) -> Result<String, Fault> {
    let [text] = words else {
        return Err(Fault::Unknown);
    };
    show_findings(alloc, found(alloc, text)?.as_slice())
}

fn found(alloc: Global, text: &Word) -> Result<Vec<Finding>, Fault> {
    let bytes = text.bytes.as_slice();
    if bytes.len() > OPAM_LIMIT {
        return Err(Fault::Line("the text is too long"));
    }
    Ok(lint(alloc, bytes)?)
}

fn show_findings(alloc: Global, findings: &[Finding]) -> Result<String, Fault> {
    let count = findings.len();
    if count > SHOWN {
        return Ok(format!(in alloc; "{count} findings")?);
    }
    if count == 0 {
        return plain(alloc, "nothing");
    }
    let mut text = String::new(alloc);
    for finding in findings {
        push_finding(&mut text, finding)?;
    }
    Ok(text)
}

fn push_finding(text: &mut String, finding: &Finding) -> Result<(), Fault> {
    if !text.is_empty() {
        text.push_str(", ")?;
    }
    let (code, at) = (finding.code, finding.at);
    write!(text, "{code} at {at}")?;
    if let Problem::Fault(_) = finding.problem {
        text.push_str(" ")?;
        text.push_str(finding.text())?;
    }
    Ok(())
}

fn lines(alloc: Global, words: &[Word]) -> Result<String, Fault> {
    let [file, text] = words else {
        return Err(Fault::Unknown);
    };
    let findings = found(alloc, text)?;
    let lines = findings_text(alloc, file.text()?, findings.as_slice())?;
    quoted(alloc, lines.as_slice())
}

fn errors(alloc: Global, words: &[Word]) -> Result<String, Fault> {
    let [text] = words else {
        return Err(Fault::Unknown);
    };
    count_errors(alloc, found(alloc, text)?.as_slice())
}

fn count_errors(alloc: Global, findings: &[Finding]) -> Result<String, Fault> {
    let count = findings.iter().filter(|finding| finding.is_error()).count();
    Ok(format!(in alloc; "{count}")?)
}

// Calls of `action_report`.
use action_report::{Decision, line_of, summary};
use back_verdict::Why;
use change_verdict::Reason;
use opam_names::{Pkg, RelPath, Text};
use row_script::devices::ending_of;
use row_script::fault::Fault;
use row_script::lexer::Word;
use row_script::script::Call;
use row_script::show::{answered, quoted};
use row_script::values::{path_of, pkg_of};
use std::alloc::Global;

pub fn answer(alloc: Global, call: &Call) -> Result<String, Fault> {
    let words = call.words.as_slice();
    match call.name.as_str() {
        "line_of" => show_line(alloc, words),
        "Decision::is_done" => show_done(alloc, words),
        "summary" => show_summary(alloc, words),
        _ => Err(Fault::Unknown),
    }
}

fn show_line(alloc: Global, words: &[Word]) -> Result<String, Fault> {
    let decision = decision_of(alloc, words)?;
    show_decision(alloc, &decision)
}

fn show_decision(alloc: Global, decision: &Decision) -> Result<String, Fault> {
    let line = line_of(alloc, decision)?;
    quoted(alloc, line.as_slice())
}

fn show_done(alloc: Global, words: &[Word]) -> Result<String, Fault> {
    answered(alloc, decision_of(alloc, words)?.is_done())
}

// A word for each decision.
fn show_summary(alloc: Global, words: &[Word]) -> Result<String, Fault> {
    let mut decisions = Vec::new(alloc);
    for word in words {
        decisions.push(decided(alloc, word)?)?;
    }
    let text = summary(alloc, decisions.as_slice())?;
    quoted(alloc, text.as_slice())
}

// A decision of one word, on some package.
fn decided(alloc: Global, word: &Word) -> Result<Decision, Fault> {
    let pkg = opam_names::Pkg::read(alloc, b"a.1");
    let Ok(pkg) = pkg else {
        return Err(Fault::Memory);
    };
    match word.text()? {
        "installed" => Ok(Decision::Installed(pkg)),
        "removed" => Ok(Decision::Removed(pkg)),
        "put-back" => Ok(Decision::PutBack(pkg)),
        "not-put-back" => Ok(Decision::NotPutBack(pkg, Why::NotKept)),
        "failed" => Ok(Decision::Failed(pkg, Reason::SwitchFull)),
        "aborted" => {
            let need = pkg.copy(alloc)?;
            Ok(Decision::Aborted(pkg, need))
        }
        _ => Err(Fault::Line("a word is no decision")),
    }
}

fn decision_of(alloc: Global, words: &[Word]) -> Result<Decision, Fault> {
    let [what, pkg, rest @ ..] = words else {
        return Err(Fault::Line("a decision has no package"));
    };
    let pkg = pkg_of(alloc, pkg)?;
    let what = what.text()?;
    match rest {
        [] => done(what, pkg),
        [cause, parts @ ..] => undone(alloc, what, pkg, cause, parts),
    }
}

fn done(what: &str, pkg: Pkg) -> Result<Decision, Fault> {
    match what {
        "installed" => Ok(Decision::Installed(pkg)),
        "removed" => Ok(Decision::Removed(pkg)),
        "put-back" => Ok(Decision::PutBack(pkg)),
        _ => Err(Fault::Line(NO_DECISION)),
    }
}

fn undone(
    alloc: Global,
    what: &str,
    pkg: Pkg,
    cause: &Word,
    parts: &[Word],
) -> Result<Decision, Fault> {
    match what {
        "aborted" => aborted(alloc, pkg, cause, parts),
        "failed" => Ok(Decision::Failed(pkg, reason_of(alloc, cause.text()?, parts)?)),
        "not-put-back" => Ok(Decision::NotPutBack(pkg, why_of(alloc, cause.text()?, parts)?)),
        _ => Err(Fault::Line(NO_DECISION)),
    }
}

fn aborted(alloc: Global, pkg: Pkg, need: &Word, rest: &[Word]) -> Result<Decision, Fault> {
    if !rest.is_empty() {
        return Err(Fault::Line(NO_DECISION));
    }
    Ok(Decision::Aborted(pkg, pkg_of(alloc, need)?))
}

const NO_DECISION: &str = "the words are no decision";

fn reason_of(alloc: Global, reason: &str, parts: &[Word]) -> Result<Reason, Fault> {
    match parts {
        [] => bare_reason(reason),
        [path] => path_reason(reason, path_of(alloc, path)?),
        [one, other] => pair_reason(alloc, reason, one, other),
        [path, other, owner] => meets_reason(alloc, reason, path, other, owner),
        _ => Err(Fault::Line(NO_REASON)),
    }
}

fn bare_reason(reason: &str) -> Result<Reason, Fault> {
    match reason {
        "install-unreadable" => Ok(Reason::InstallUnreadable),
        "install-too-long" => Ok(Reason::InstallTooLong),
        "files-too-long" => Ok(Reason::FilesTooLong),
        "switch-full" => Ok(Reason::SwitchFull),
        _ => Err(Fault::Line(NO_REASON)),
    }
}

fn path_reason(reason: &str, path: RelPath) -> Result<Reason, Fault> {
    match reason {
        "missing" => Ok(Reason::Missing(path)),
        "unreadable" => Ok(Reason::Unreadable(path)),
        "foreign" => Ok(Reason::Foreign(path)),
        _ => Err(Fault::Line(NO_REASON)),
    }
}

fn pair_reason(alloc: Global, reason: &str, one: &Word, other: &Word) -> Result<Reason, Fault> {
    match reason {
        "step" => step_of(one, other),
        "owned" => Ok(Reason::Owned(path_of(alloc, one)?, pkg_of(alloc, other)?)),
        _ => Err(Fault::Line(NO_REASON)),
    }
}

fn meets_reason(
    alloc: Global,
    reason: &str,
    path: &Word,
    other: &Word,
    owner: &Word,
) -> Result<Reason, Fault> {
    match reason {
        "meets" => {
            let path = path_of(alloc, path)?;
            let other = path_of(alloc, other)?;
            Ok(Reason::Meets(path, other, pkg_of(alloc, owner)?))
        }
        _ => Err(Fault::Line(NO_REASON)),
    }
}

fn why_of(alloc: Global, why: &str, parts: &[Word]) -> Result<Why, Fault> {
    match parts {
        [] => bare_why(why),
        [other] => pkg_why(why, pkg_of(alloc, other)?),
        [one, other] => pair_why(alloc, why, one, other),
        _ => Err(Fault::Line(NO_REASON)),
    }
}

fn bare_why(why: &str) -> Result<Why, Fault> {
    match why {
        "not-kept" => Ok(Why::NotKept),
        "unmet" => Ok(Why::Unmet),
        "full" => Ok(Why::Full),
        _ => Err(Fault::Line(NO_REASON)),
    }
}

fn pkg_why(why: &str, other: Pkg) -> Result<Why, Fault> {
    match why {
        "conflict" => Ok(Why::Conflict(other)),
        "late" => Ok(Why::Late(other)),
        _ => Err(Fault::Line(NO_REASON)),
    }
}

fn pair_why(alloc: Global, why: &str, one: &Word, other: &Word) -> Result<Why, Fault> {
    match why {
        "class" => {
            let class = Text::from_str(alloc, one.text()?)?;
            Ok(Why::Class(class, pkg_of(alloc, other)?))
        }
        "owned" => Ok(Why::Clash(pair_reason(alloc, why, one, other)?)),
        _ => Err(Fault::Line(NO_REASON)),
    }
}

const NO_REASON: &str = "the words are no reason";

fn step_of(step: &Word, ending: &Word) -> Result<Reason, Fault> {
    match step.text()?.parse::<u32>() {
        Ok(step) => Ok(Reason::Step(step, ending_of(ending)?)),
        Err(_) => Err(Fault::Line("a word is no step")),
    }
}

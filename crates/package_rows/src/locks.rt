// Calls of `lock_check`. What a lock binds is shown by its packages.
use crate::filters::faulty;
use crate::spans::{show_at, show_doubled};
use lock_check::{Lock, LockFault, read_lock};
use opam_filter::Vars;
use opam_names::Pkg;
use row_script::fault::Fault;
use row_script::lexer::Word;
use row_script::script::Call;
use row_script::show::plain;
use std::alloc::Global;
use syntax_trees::{FILE_LIMIT, SyntaxFault};

pub fn answer(alloc: Global, call: &Call, vars: &Vars) -> Result<String, Fault> {
    match call.name.as_str() {
        "read_lock" => read(alloc, call.words.as_slice(), vars),
        _ => Err(Fault::Unknown),
    }
}

fn read(alloc: Global, words: &[Word], vars: &Vars) -> Result<String, Fault> {
    let [text] = words else {
        return Err(Fault::Unknown);
    };
    let bytes = text.bytes.as_slice();
    if bytes.len() > FILE_LIMIT {
        return Err(Fault::Line("the text is too long"));
    }
    match read_lock(alloc, bytes, vars) {
        Ok(lock) => show_lock(alloc, &lock),
        Err(fault) => refused(alloc, fault),
    }
}

fn show_lock(alloc: Global, lock: &Lock) -> Result<String, Fault> {
    let mut text = String::new(alloc);
    for pkg in lock.bound.as_slice() {
        push_pkg(&mut text, pkg)?;
    }
    if text.is_empty() {
        text.push_str("nothing")?;
    }
    Ok(text)
}

fn push_pkg(text: &mut String, pkg: &Pkg) -> Result<(), Fault> {
    let between = if text.is_empty() { "" } else { "," };
    text.push_str(between)?;
    text.push_str(pkg.name.as_str())?;
    text.push_str(".")?;
    Ok(text.push_str(pkg.version.as_str())?)
}

fn refused(alloc: Global, fault: LockFault) -> Result<String, Fault> {
    match fault {
        LockFault::Syntax(SyntaxFault::Doubled { at }) => show_doubled(alloc, at),
        LockFault::Syntax(_) => plain(alloc, "no file"),
        LockFault::Filter(fault) => faulty(alloc, fault),
        LockFault::Unbound { span } => show_at(alloc, "unbound", span),
        LockFault::Twice { span } => show_at(alloc, "twice", span),
        LockFault::Memory => Err(Fault::Memory),
    }
}

// What each text is as a lock with which another one begins. One after another that are answered alike stand together.
use lock_check::{Lock, LockFault, read_lock};
use opam_filter::Vars;
use opam_names::Pkg;
use row_script::fault::Fault;
use row_script::lexer::Word;
use row_script::show::plain;
use std::alloc::Global;
use syntax_trees::FILE_LIMIT;

/// The answers by the number of bytes from which on they are given.
pub fn prefixes(alloc: Global, text: &Word) -> Result<String, Fault> {
    let bytes = text.bytes.as_slice();
    if bytes.len() > 1000 {
        return Err(Fault::Line("the text is too long"));
    }
    let mut shown = String::new(alloc);
    let mut last = String::new(alloc);
    for end in 0..bytes.len() {
        let (begin, _) = bytes.split_at(end);
        let answer = answer_to(alloc, begin)?;
        if answer.as_str() != last.as_str() {
            push_run(&mut shown, end, answer.as_str())?;
            last = answer;
        }
    }
    Ok(shown)
}

fn push_run(shown: &mut String, end: usize, answer: &str) -> Result<(), Fault> {
    shown.push_str(if shown.is_empty() { "" } else { ", " })?;
    Ok(write!(shown, "{end}: {answer}")?)
}

fn answer_to(alloc: Global, bytes: &[u8]) -> Result<String, Fault> {
    if bytes.len() > FILE_LIMIT {
        return Err(Fault::Line("the text is too long"));
    }
    match read_lock(alloc, bytes, &Vars::empty(alloc)) {
        Ok(lock) => show(alloc, &lock),
        Err(LockFault::Memory) => Err(Fault::Memory),
        Err(LockFault::Syntax(_)) => plain(alloc, "no file"),
        Err(_) => plain(alloc, "no lock"),
    }
}

fn show(alloc: Global, lock: &Lock) -> Result<String, Fault> {
    let pkgs: &[Pkg] = lock.bound.as_slice();
    let mut text = String::from_str(alloc, "binds ")?;
    crate::shows::push_pkgs(&mut text, pkgs)?;
    Ok(text)
}

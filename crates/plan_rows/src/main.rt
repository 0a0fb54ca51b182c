//! Answers a script of changes of small switches, a line each: what a change comes to, what stands against it, what it does in which
//! order, and what each build sees. What is stored beside it was worked out by hand, or reckoned from the documents alone by
//! `tools/reckoning`. It proves nothing but that it is safe.
#![tactic(auto)]

mod changes;
mod chases;
mod locks;
mod shelf;
mod shows;

use opam_package::Member;
use row_script::answers::{as_it_is, stands_for_itself, with_answer, write_line};
use row_script::fault::Fault;
use row_script::lexer::Word;
use row_script::script::read_call;
use row_script::show::plain;
use std::alloc::{AllocError, Global};
use std::io;
use std::io::{BufRead, BufReader, BufWriter, Write};

fn main(rt: HostRuntime) -> io::Result<()> {
    let alloc = rt.alloc();
    let mut shelf = Vec::new(alloc);
    let mut out = BufWriter::new(alloc, io::writer(&rt))?;
    for line in BufReader::new(alloc, rt.reader())?.split(alloc, b'\n') {
        let text = reply(alloc, line?.as_slice(), &mut shelf)?;
        write_line(&mut out, text.as_str())?;
    }
    out.flush()
}

// What is printed for a line.
fn reply(alloc: Global, line: &[u8], shelf: &mut Vec<Member>) -> Result<String, AllocError> {
    if stands_for_itself(line) {
        return as_it_is(alloc, line);
    }
    with_answer(alloc, line, answer(alloc, line, shelf))
}

fn answer(alloc: Global, line: &[u8], shelf: &mut Vec<Member>) -> Result<String, Fault> {
    let call = &read_call(alloc, line)?;
    let name = call.name.as_str();
    match call.words.as_slice() {
        [] => answer_bare(alloc, name, shelf),
        [word] => answer_word(alloc, name, word, shelf.as_slice()),
        [pkg, text] if name == "package" => shelf::put(alloc, shelf, pkg, text),
        [installed, names] => answer_pair(alloc, name, installed, names, shelf.as_slice()),
        words => answer_change(alloc, name, words, shelf.as_slice()),
    }
}

// An empty shelf takes the place of the last one.
fn answer_bare(alloc: Global, name: &str, shelf: &mut Vec<Member>) -> Result<String, Fault> {
    match name {
        "shelf" => {
            *shelf = Vec::new(alloc);
            plain(alloc, "noted")
        }
        _ => Err(Fault::Unknown),
    }
}

fn answer_word(alloc: Global, name: &str, word: &Word, shelf: &[Member]) -> Result<String, Fault> {
    match name {
        "are_in_order" => shelf::rise(alloc, shelf, word),
        "names_differ" => shelf::differ(alloc, shelf, word),
        "prefixes" => locks::prefixes(alloc, word),
        _ => Err(Fault::Unknown),
    }
}

fn answer_pair(
    alloc: Global,
    name: &str,
    installed: &Word,
    names: &Word,
    shelf: &[Member],
) -> Result<String, Fault> {
    match name {
        "order" => changes::list(alloc, shelf, installed, names),
        _ => Err(Fault::Unknown),
    }
}

fn answer_change(
    alloc: Global,
    name: &str,
    words: &[Word],
    shelf: &[Member],
) -> Result<String, Fault> {
    match words {
        [installed, names, last] => answer_named(alloc, name, installed, names, last, shelf),
        [installed, lock, asked, roots] if name == "install" => {
            chases::install(alloc, shelf, installed, lock, asked, roots)
        }
        _ => Err(Fault::Unknown),
    }
}

fn answer_named(
    alloc: Global,
    name: &str,
    installed: &Word,
    names: &Word,
    last: &Word,
    shelf: &[Member],
) -> Result<String, Fault> {
    match name {
        "count" => chases::count(alloc, shelf, installed, names, last),
        "reinstall" => changes::reinstall(alloc, shelf, installed, names, last),
        "remove" => changes::remove(alloc, shelf, installed, names, last),
        _ => Err(Fault::Unknown),
    }
}

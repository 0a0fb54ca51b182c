// Calls of `command_words`.
use command_words::{Change, Command, Query, Shown, WordFault, read_words};
use opam_names::{Items, Name, Text};
use row_script::fault::Fault;
use row_script::lexer::Word;
use row_script::script::{Call, strings};
use row_script::show::{plain, quoted};
use std::alloc::Global;

pub fn answer(alloc: Global, call: &Call) -> Result<String, Fault> {
    match call.name.as_str() {
        "read_words" => read(alloc, call.words.as_slice()),
        _ => Err(Fault::Unknown),
    }
}

fn read(alloc: Global, words: &[Word]) -> Result<String, Fault> {
    let words = strings(alloc, words)?;
    match read_words(alloc, words.as_slice()) {
        Ok(command) => show_command(alloc, &command),
        Err(fault) => show_fault(alloc, &fault),
    }
}

fn show_fault(alloc: Global, fault: &WordFault) -> Result<String, Fault> {
    match fault {
        WordFault::Memory => Err(Fault::Memory),
        _ => refused(alloc, fault),
    }
}

fn refused(alloc: Global, fault: &WordFault) -> Result<String, Fault> {
    let text = fault.text(alloc)?;
    let text = quoted(alloc, text.as_bytes())?;
    Ok(format!(in alloc; "refused, {text}")?)
}

fn show_command(alloc: Global, command: &Command) -> Result<String, Fault> {
    match command {
        Command::Change(change) => show_change(alloc, change),
        Command::Query(query) => show_query(alloc, query),
    }
}

fn show_change(alloc: Global, change: &Change) -> Result<String, Fault> {
    match change {
        Change::Install {
            lock_file,
            repo,
            jobs,
            names,
        } => show_install(alloc, lock_file, repo, *jobs, names),
        Change::Remove { jobs, names } => show_names(alloc, "remove", *jobs, names),
        Change::Reinstall { jobs, names } => show_names(alloc, "reinstall", *jobs, names),
    }
}

fn show_install(
    alloc: Global,
    lock_file: &Text,
    repo: &Text,
    jobs: u32,
    names: &Items<Name>,
) -> Result<String, Fault> {
    let lock_file = quoted(alloc, lock_file.as_str().as_bytes())?;
    let repo = quoted(alloc, repo.as_str().as_bytes())?;
    let begin = format!(in alloc; "install by {lock_file} from {repo}")?;
    show_names(alloc, begin.as_str(), jobs, names)
}

fn show_names(alloc: Global, begin: &str, jobs: u32, names: &Items<Name>) -> Result<String, Fault> {
    let mut text = format!(in alloc; "{begin}, jobs {jobs}, names:")?;
    for name in names.as_slice() {
        text.push_str(" ")?;
        text.push_str(name.as_str())?;
    }
    Ok(text)
}

fn show_query(alloc: Global, query: &Query) -> Result<String, Fault> {
    match query {
        Query::List => plain(alloc, "list"),
        Query::Show { repo, what } => show_shown(alloc, repo, what),
        Query::Lint { file } => {
            let file = quoted(alloc, file.as_str().as_bytes())?;
            Ok(format!(in alloc; "lint {file}")?)
        }
    }
}

fn show_shown(alloc: Global, repo: &Text, what: &Shown) -> Result<String, Fault> {
    let repo = quoted(alloc, repo.as_str().as_bytes())?;
    match what {
        Shown::Name(name) => {
            let name = name.as_str();
            Ok(format!(in alloc; "show the name {name}, or from {repo}")?)
        }
        Shown::Exact(pkg) => {
            let pkg = pkg.print(alloc)?;
            Ok(format!(in alloc; "show the package {pkg}, or from {repo}")?)
        }
    }
}

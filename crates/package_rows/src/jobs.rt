// Calls of `build_env`, over the facts of the script: the part of the job that is shown, the view, the package with the text of
// its opam file, and for each export its package with the text of that one's file. A part `$X` is the value of X.
use crate::filters::set_of;
use build_env::{Export, job_for};
use opam_names::{Items, Text};
use opam_package::{EnvUpdate, OPAM_LIMIT, Package, PackageFault, read_package};
use outside_io::Job;
use package_vars::{Facts, View, globals};
use row_script::fault::Fault;
use row_script::lexer::Word;
use row_script::script::Call;
use row_script::show::{plain, push_quoted, quoted};
use row_script::values::pkg_of;
use std::alloc::Global;

pub fn answer(alloc: Global, call: &Call, facts: &Facts) -> Result<String, Fault> {
    match call.name.as_str() {
        "job_for" => show_job(alloc, call.words.as_slice(), facts),
        _ => Err(Fault::Unknown),
    }
}

fn show_job(alloc: Global, words: &[Word], facts: &Facts) -> Result<String, Fault> {
    let [part, view, pkg, text, exports @ ..] = words else {
        return Err(Fault::Unknown);
    };
    let job = made(alloc, facts, view, pkg, text, exports)?;
    part_of(alloc, &job, part)
}

fn made(
    alloc: Global,
    facts: &Facts,
    view: &Word,
    pkg: &Word,
    text: &Word,
    exports: &[Word],
) -> Result<Job, Fault> {
    let built = package(alloc, facts, pkg, text)?;
    let view = view_of(alloc, view)?;
    let exports = exports_of(alloc, facts, exports)?;
    Ok(job_for(alloc, &built, &view, exports.as_slice(), facts)?)
}

fn view_of(alloc: Global, set: &Word) -> Result<View, Fault> {
    let members = Items::from_vec(set_of(alloc, set)?);
    Ok(View { members })
}

fn package(alloc: Global, facts: &Facts, pkg: &Word, text: &Word) -> Result<Package, Fault> {
    let bytes = text.bytes.as_slice();
    if bytes.len() > OPAM_LIMIT {
        return Err(Fault::Line("the text is too long"));
    }
    let pkg = pkg_of(alloc, pkg)?;
    let vars = globals(alloc, facts)?;
    match read_package(alloc, bytes, &pkg, &vars) {
        Ok(package) => Ok(package),
        Err(PackageFault::Memory) => Err(Fault::Memory),
        Err(_) => Err(Fault::Line("the file has a fault")),
    }
}

fn updates_of(alloc: Global, package: &Package) -> Result<Items<EnvUpdate>, Fault> {
    let mut updates = Items::new(alloc);
    for update in package.exports.as_slice() {
        updates.push(update.copy(alloc)?)?;
    }
    Ok(updates)
}

fn exports_of(alloc: Global, facts: &Facts, words: &[Word]) -> Result<Vec<Export>, Fault> {
    let mut exports = Vec::new(alloc);
    let mut left = words;
    for _ in words {
        let [pkg, text, later @ ..] = left else {
            return Ok(exports);
        };
        exports.push(export_of(alloc, facts, pkg, text)?)?;
        left = later;
    }
    Ok(exports)
}

fn export_of(alloc: Global, facts: &Facts, pkg: &Word, text: &Word) -> Result<Export, Fault> {
    let package = package(alloc, facts, pkg, text)?;
    Ok(Export {
        pkg: package.pkg.copy(alloc)?,
        updates: updates_of(alloc, &package)?,
    })
}

fn part_of(alloc: Global, job: &Job, part: &Word) -> Result<String, Fault> {
    let part = part.text()?;
    if let Some(name) = part.strip_prefix('$') {
        return value_of(alloc, job.env.as_slice(), name);
    }
    match part {
        "package" => Ok(job.pkg.print(alloc)?),
        "source" => show_source(alloc, &job.source),
        "commands" => show_commands(alloc, job.commands.as_slice()),
        "names" => show_names(alloc, job.env.as_slice()),
        "env" => show_env(alloc, job.env.as_slice()),
        _ => Err(Fault::Line("a job has no such part")),
    }
}

fn show_source(alloc: Global, source: &Option<Text>) -> Result<String, Fault> {
    match source {
        None => plain(alloc, "none"),
        Some(folder) => quoted(alloc, folder.as_str().as_bytes()),
    }
}

fn value_of(alloc: Global, env: &[(Text, Text)], name: &str) -> Result<String, Fault> {
    for (set, value) in env {
        if set.as_str() == name {
            return quoted(alloc, value.as_str().as_bytes());
        }
    }
    plain(alloc, "unset")
}

fn push_words(text: &mut String, words: &[Text]) -> Result<(), Fault> {
    for word in words {
        text.push_str(" ")?;
        push_quoted(text, word.as_str().as_bytes())?;
    }
    Ok(())
}

fn show_commands(alloc: Global, commands: &[Items<Text>]) -> Result<String, Fault> {
    let mut text = String::from_str(alloc, "(")?;
    for words in commands {
        push_command(&mut text, words.as_slice())?;
    }
    text.push_str(" )")?;
    Ok(text)
}

fn push_command(text: &mut String, words: &[Text]) -> Result<(), Fault> {
    text.push_str(" (")?;
    push_words(text, words)?;
    Ok(text.push_str(" )")?)
}

fn show_names(alloc: Global, env: &[(Text, Text)]) -> Result<String, Fault> {
    let mut text = String::new(alloc);
    for (name, _) in env {
        if !text.is_empty() {
            text.push_str(" ")?;
        }
        text.push_str(name.as_str())?;
    }
    Ok(text)
}

fn show_env(alloc: Global, env: &[(Text, Text)]) -> Result<String, Fault> {
    let mut text = String::new(alloc);
    for (name, value) in env {
        push_variable(&mut text, name.as_str(), value.as_str())?;
    }
    Ok(text)
}

fn push_variable(text: &mut String, name: &str, value: &str) -> Result<(), Fault> {
    if !text.is_empty() {
        text.push_str(" ")?;
    }
    text.push_str(name)?;
    text.push_str("=")?;
    push_quoted(text, value.as_bytes())
}

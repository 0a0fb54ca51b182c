// Calls of `change_verdict`: what is decided of a package whose job is built, or has stopped at a step.
use crate::reasons::reason_text;
use change_verdict::{Sources, Verdict, sources_of, verdict_of_job, would_be_full};
use crash_disk::DiskFault;
use journal_text::Placed;
use opam_names::{Items, Pkg, RelPath};
use outside_io::{Fate, Job};
use owner_map::Owners;
use row_script::devices::{Devices, ending_of};
use row_script::fault::Fault;
use row_script::lexer::Word;
use row_script::script::Call;
use row_script::show::{answered, plain, push_quoted};
use row_script::values::{path_of, pkg_of};
use std::alloc::Global;

pub fn answer(
    alloc: Global,
    call: &Call,
    devices: &mut Devices,
    owners: &mut Owners,
) -> Result<String, Fault> {
    match call.words.as_slice() {
        [pkg] => answer_built(alloc, call.name.as_str(), pkg, devices, owners),
        [path, owner] => answer_owned(alloc, call.name.as_str(), path, owner, owners),
        [pkg, step, ending] => {
            let fate = stopped(step, ending)?;
            answer_stopped(alloc, call.name.as_str(), pkg, fate, devices, owners)
        }
        _ => Err(Fault::Unknown),
    }
}

fn answer_built(
    alloc: Global,
    name: &str,
    word: &Word,
    devices: &mut Devices,
    owners: &Owners,
) -> Result<String, Fault> {
    match name {
        "sources_of" => show_sources(alloc, word, Fate::Built, devices),
        "verdict_of_job" => show_verdict(alloc, word, Fate::Built, devices, owners),
        "would_be_full" => answered(alloc, would_be_full(owners, word.number()? as usize)),
        _ => Err(Fault::Unknown),
    }
}

fn answer_stopped(
    alloc: Global,
    name: &str,
    pkg: &Word,
    fate: Fate,
    devices: &mut Devices,
    owners: &Owners,
) -> Result<String, Fault> {
    match name {
        "sources_of" => show_sources(alloc, pkg, fate, devices),
        "verdict_of_job" => show_verdict(alloc, pkg, fate, devices, owners),
        _ => Err(Fault::Unknown),
    }
}

fn answer_owned(
    alloc: Global,
    name: &str,
    path: &Word,
    owner: &Word,
    owners: &mut Owners,
) -> Result<String, Fault> {
    match name {
        "owned" => own(alloc, path_of(alloc, path)?, pkg_of(alloc, owner)?, owners),
        _ => Err(Fault::Unknown),
    }
}

fn own(alloc: Global, path: RelPath, owner: Pkg, owners: &mut Owners) -> Result<String, Fault> {
    owners.reserve(1)?;
    let free = owners.is_free(&path)?;
    if !free {
        return Err(Fault::Line("the path meets an owned one"));
    }
    owners.add(path, owner);
    plain(alloc, "noted")
}

fn stopped(step: &Word, ending: &Word) -> Result<Fate, Fault> {
    let step = step.number()?;
    if step > 64 {
        return Err(Fault::Line("a job has no such step"));
    }
    Ok(Fate::Stopped {
        step: step as u32,
        ending: ending_of(ending)?,
    })
}

fn job_of(alloc: Global, pkg: &Word) -> Result<Job, Fault> {
    Ok(Job {
        pkg: pkg_of(alloc, pkg)?,
        source: None,
        commands: Items::new(alloc),
        env: Items::new(alloc),
    })
}

fn show_sources(
    alloc: Global,
    pkg: &Word,
    fate: Fate,
    devices: &mut Devices,
) -> Result<String, Fault> {
    let job = job_of(alloc, pkg)?;
    match built_sources(alloc, &job, fate, devices)? {
        Sources::Found(files) => show_files(alloc, files.as_slice()),
        Sources::Refused(reason) => reason_text(alloc, &reason),
    }
}

fn built_sources(
    alloc: Global,
    job: &Job,
    fate: Fate,
    devices: &mut Devices,
) -> Result<Sources, Fault> {
    let shop = devices.take_shop(alloc)?;
    let sources = sources_of(alloc, &*shop, job, fate);
    devices.keep_shop(shop);
    Ok(sources?)
}

fn show_verdict(
    alloc: Global,
    pkg: &Word,
    fate: Fate,
    devices: &mut Devices,
    owners: &Owners,
) -> Result<String, Fault> {
    let job = job_of(alloc, pkg)?;
    match decided(alloc, &job, fate, devices, owners)? {
        Ok(Verdict::Places(files)) => show_files(alloc, files.as_slice()),
        Ok(Verdict::Fails(reason)) => reason_text(alloc, &reason),
        Err(DiskFault::Failed) => plain(alloc, "disk fault"),
        Err(DiskFault::Memory) => Err(Fault::Memory),
    }
}

fn decided(
    alloc: Global,
    job: &Job,
    fate: Fate,
    devices: &mut Devices,
    owners: &Owners,
) -> Result<Result<Verdict, DiskFault>, Fault> {
    let shop = devices.take_shop(alloc)?;
    let mut disk = devices.take_disk(alloc);
    let verdict = verdict_of_job(alloc, &*shop, &mut disk, owners, job, fate);
    devices.keep_disk(disk);
    devices.keep_shop(shop);
    Ok(verdict)
}

fn show_files(alloc: Global, files: &[Placed]) -> Result<String, Fault> {
    if files.is_empty() {
        return plain(alloc, "nothing");
    }
    let mut text = String::new(alloc);
    for file in files {
        push_file(&mut text, file)?;
    }
    Ok(text)
}

fn push_file(text: &mut String, file: &Placed) -> Result<(), Fault> {
    if !text.is_empty() {
        text.push_str(", ")?;
    }
    text.push_str(file.path.as_str())?;
    text.push_str(if file.exec { " executable " } else { " " })?;
    push_quoted(text, file.bytes.as_slice())
}

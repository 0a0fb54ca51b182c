//! The program: the machine's files, streams and build folders under the top call.
#![tactic(auto)]

mod children;
mod disk;
mod fault;
mod files;
mod folders;
mod host;
mod loose;
mod source;
mod start;
mod streams;
mod switch;
#[cfg(test)]
mod tests;

use children::ChildShop;
use disk::FolderDisk;
use host::FolderHost;
use opam_top::{Facts, opam_run};
use start::{StartError, arguments, facts, switch_folder};
use std::alloc::Global;
use std::env::Env;
use std::fs::File;
use std::process::{ExitCode, Processes};
use std::rt::Files;
use std::sync::Arc;
use streams::{OutSink, open_standard_streams};

fn main(rt: HostRuntime) -> ExitCode {
    let alloc = rt.alloc();
    let run = match prepare(&rt, alloc) {
        Ok(run) => run,
        Err(error) => {
            let _ = eprintln!(rt; "opam_main: {error}");
            return ExitCode::from(error.number());
        }
    };
    let Run {
        words,
        facts,
        mut host,
        shop,
        mut disk,
    } = run;
    let mut out = OutSink::new(rt.stdout());
    let mut err = OutSink::new(rt.stderr());
    let ended = opam_run(
        &rt,
        alloc,
        words.as_slice(),
        &facts,
        &mut host,
        &shop,
        &mut disk,
        &mut out,
        &mut err,
    );
    ExitCode::from(ended.status.number())
}

// What a run takes of this machine: the words, what is known, and the devices.
struct Run<R: Files<File = File> + Processes> {
    words: Vec<String>,
    facts: Facts,
    host: FolderHost<R>,
    shop: Arc<ChildShop<R>>,
    disk: FolderDisk<R>,
}

fn prepare<R: Files<File = File> + Processes + Env + AllocGlobal + Clone + Drop>(
    rt: &R,
    alloc: Global,
) -> Result<Run<R>, StartError> {
    open_standard_streams(rt).map_err(StartError::Streams)?;
    let words = arguments(rt, alloc)?;
    let prefix = switch_folder(rt, alloc)?;
    let facts = facts(rt, alloc, prefix.as_str())?;
    let shop = Arc::new(alloc, ChildShop::new(rt.clone()?, prefix.clone()?))?;
    Ok(Run {
        words,
        facts,
        host: FolderHost::new(rt.clone()?),
        shop,
        disk: FolderDisk::new(alloc, rt.clone()?, prefix),
    })
}

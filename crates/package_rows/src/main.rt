//! Answers a script of calls of the crates that read what packages say, a line each, so that what each call gives can be read
//! by eye and compared with what is stored. It proves nothing but that it is safe.
#![tactic(auto)]

mod files;
mod filter_show;
mod filters;
mod floors;
mod installs;
mod jobs;
mod lints;
mod locks;
mod package_show;
mod packages;
mod reads;
mod repository;
mod spans;
mod trees;
mod variables;

use opam_filter::Vars;
use package_vars::Facts;
use row_script::answers::{as_it_is, stands_for_itself, with_answer, write_line};
use row_script::devices;
use row_script::devices::Devices;
use row_script::fault::Fault;
use row_script::script::{Call, read_call};
use std::alloc::{AllocError, Global};
use std::io;
use std::io::{BufRead, BufReader, BufWriter, Write};
use variables::no_facts;

fn main(rt: HostRuntime) -> io::Result<()> {
    let alloc = rt.alloc();
    let mut world = World::new(alloc);
    let mut out = BufWriter::new(alloc, io::writer(&rt))?;
    for line in BufReader::new(alloc, rt.reader())?.split(alloc, b'\n') {
        let text = reply(alloc, line?.as_slice(), &mut world)?;
        write_line(&mut out, text.as_str())?;
    }
    out.flush()
}

// What is printed for a line.
fn reply(alloc: Global, line: &[u8], world: &mut World) -> Result<String, AllocError> {
    if stands_for_itself(line) {
        return as_it_is(alloc, line);
    }
    with_answer(alloc, line, answer(alloc, line, world))
}

// What the lines so far have left for the next ones.
#[derive(Drop)]
struct World {
    vars: Vars,
    facts: Facts,
    devices: Devices,
}

impl World {
    fn new(alloc: Global) -> World {
        World {
            vars: Vars::empty(alloc),
            facts: no_facts(alloc),
            devices: Devices::new(alloc),
        }
    }
}

// Each module answers the calls of one crate.
fn answer(alloc: Global, line: &[u8], world: &mut World) -> Result<String, Fault> {
    let call = &read_call(alloc, line)?;
    match answer_texts(alloc, call) {
        Err(Fault::Unknown) => {}
        known => return known,
    }
    match answer_vars(alloc, call, &mut world.vars) {
        Err(Fault::Unknown) => {}
        known => return known,
    }
    match answer_facts(alloc, call, &mut world.facts) {
        Err(Fault::Unknown) => answer_devices(alloc, call, &mut world.devices, &world.vars),
        known => known,
    }
}

fn answer_texts(alloc: Global, call: &Call) -> Result<String, Fault> {
    match files::answer(alloc, call) {
        Err(Fault::Unknown) => {}
        known => return known,
    }
    match reads::answer(alloc, call) {
        Err(Fault::Unknown) => {}
        known => return known,
    }
    match installs::answer(alloc, call) {
        Err(Fault::Unknown) => {}
        known => return known,
    }
    match lints::answer(alloc, call) {
        Err(Fault::Unknown) => floors::answer(alloc, call),
        known => known,
    }
}

fn answer_vars(alloc: Global, call: &Call, vars: &mut Vars) -> Result<String, Fault> {
    match filters::answer(alloc, call, vars) {
        Err(Fault::Unknown) => {}
        known => return known,
    }
    match packages::answer(alloc, call, vars) {
        Err(Fault::Unknown) => locks::answer(alloc, call, vars),
        known => known,
    }
}

fn answer_facts(alloc: Global, call: &Call, facts: &mut Facts) -> Result<String, Fault> {
    match jobs::answer(alloc, call, facts) {
        Err(Fault::Unknown) => variables::answer(alloc, call, facts),
        known => known,
    }
}

fn answer_devices(
    alloc: Global,
    call: &Call,
    devices: &mut Devices,
    vars: &Vars,
) -> Result<String, Fault> {
    match devices::answer(alloc, call, devices) {
        Err(Fault::Unknown) => repository::answer(alloc, call, devices, vars),
        known => known,
    }
}

//! Answers a script of calls of the crates on names, words, paths, devices and the journal, a line each, so that what each
//! call gives can be read by eye and compared with what is stored. It proves nothing but that it is safe.
#![tactic(auto)]

mod calls;
mod contents;
mod journal;
mod lists;
mod names;
mod openings;
mod owners;
mod paths;
mod pieces;
mod reports;
mod spellings;
mod steps;
mod words;

use contents::Step;
use owner_map::Owners;
use row_script::answers::{as_it_is, stands_for_itself, with_answer, write_line};
use row_script::devices::Devices;
use row_script::fault::Fault;
use row_script::script::{Call, read_call};
use row_script::{devices, disk_calls};
use std::alloc::{AllocError, Global};
use std::io;
use std::io::{BufRead, BufReader, BufWriter, Write};

fn main(rt: HostRuntime) -> io::Result<()> {
    let alloc = rt.alloc();
    let mut world = World::new(alloc);
    let mut out = BufWriter::new(alloc, io::writer(&rt))?;
    for line in BufReader::new(alloc, rt.reader())?.split(alloc, b'\n') {
        let text = reply(alloc, line?.as_slice(), &mut world)?;
        write_line(&mut out, text.as_str())?;
    }
    out.flush()
}

// What is printed for a line.
fn reply(alloc: Global, line: &[u8], world: &mut World) -> Result<String, AllocError> {
    if stands_for_itself(line) {
        return as_it_is(alloc, line);
    }
    with_answer(alloc, line, answer(alloc, line, world))
}

// What the lines so far have left for the next ones.
#[derive(Drop)]
struct World {
    devices: Devices,
    owners: Owners,
    steps: Vec<Step>,
}

impl World {
    fn new(alloc: Global) -> World {
        World {
            devices: Devices::new(alloc),
            owners: Owners::empty(alloc),
            steps: Vec::new(alloc),
        }
    }
}

// Each module answers the calls of one crate.
fn answer(alloc: Global, line: &[u8], world: &mut World) -> Result<String, Fault> {
    let call = &read_call(alloc, line)?;
    match answer_values(alloc, call) {
        Err(Fault::Unknown) => {}
        known => return known,
    }
    match answer_devices(alloc, call, &mut world.devices) {
        Err(Fault::Unknown) => {}
        known => return known,
    }
    match owners::answer(alloc, call, &mut world.owners) {
        Err(Fault::Unknown) => contents::answer(alloc, call, &mut world.steps),
        known => known,
    }
}

fn answer_values(alloc: Global, call: &Call) -> Result<String, Fault> {
    match names::answer(alloc, call) {
        Err(Fault::Unknown) => {}
        known => return known,
    }
    match lists::answer(alloc, call) {
        Err(Fault::Unknown) => {}
        known => return known,
    }
    match paths::answer(alloc, call) {
        Err(Fault::Unknown) => {}
        known => return known,
    }
    match words::answer(alloc, call) {
        Err(Fault::Unknown) => {}
        known => return known,
    }
    match spellings::answer(alloc, call) {
        Err(Fault::Unknown) => reports::answer(alloc, call),
        known => known,
    }
}

fn answer_devices(alloc: Global, call: &Call, devices: &mut Devices) -> Result<String, Fault> {
    match devices::answer(alloc, call, devices) {
        Err(Fault::Unknown) => {}
        known => return known,
    }
    match calls::answer(alloc, call, devices) {
        Err(Fault::Unknown) => {}
        known => return known,
    }
    match disk_calls::answer(alloc, call, devices) {
        Err(Fault::Unknown) => {}
        known => return known,
    }
    match journal::answer(alloc, call, devices) {
        Err(Fault::Unknown) => {}
        known => return known,
    }
    match openings::answer(alloc, call, devices) {
        Err(Fault::Unknown) => steps::answer(alloc, call, devices),
        known => known,
    }
}

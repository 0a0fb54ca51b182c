//! Answers a script of calls of `change_verdict` over a workshop, a disk and the owners of paths, a line each, so that what is decided
//! of an install can be read by eye and compared with what is stored. It proves nothing but that it is safe.
#![tactic(auto)]

mod reasons;
mod verdicts;

use owner_map::Owners;
use row_script::answers::{as_it_is, stands_for_itself, with_answer, write_line};
use row_script::devices;
use row_script::devices::Devices;
use row_script::fault::Fault;
use row_script::script::read_call;
use std::alloc::{AllocError, Global};
use std::io;
use std::io::{BufRead, BufReader, BufWriter, Write};

fn main(rt: HostRuntime) -> io::Result<()> {
    let alloc = rt.alloc();
    let mut world = World {
        devices: Devices::new(alloc),
        owners: Owners::empty(alloc),
    };
    let mut out = BufWriter::new(alloc, io::writer(&rt))?;
    for line in BufReader::new(alloc, rt.reader())?.split(alloc, b'\n') {
        let text = reply(alloc, line?.as_slice(), &mut world)?;
        write_line(&mut out, text.as_str())?;
    }
    out.flush()
}

// What is printed for a line.
fn reply(alloc: Global, line: &[u8], world: &mut World) -> Result<String, AllocError> {
    if stands_for_itself(line) {
        return as_it_is(alloc, line);
    }
    with_answer(alloc, line, answer(alloc, line, world))
}

// What the lines so far have left for the next ones.
#[derive(Drop)]
struct World {
    devices: Devices,
    owners: Owners,
}

fn answer(alloc: Global, line: &[u8], world: &mut World) -> Result<String, Fault> {
    let call = &read_call(alloc, line)?;
    match devices::answer(alloc, call, &mut world.devices) {
        Err(Fault::Unknown) => {}
        known => return known,
    }
    verdicts::answer(alloc, call, &mut world.devices, &mut world.owners)
}

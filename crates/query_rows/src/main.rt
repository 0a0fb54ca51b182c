//! Answers a script of questions over devices in memory, so that what each is answered and leaves can be read by eye and compared with
//! what is stored. It proves nothing but that it is safe.
#![tactic(auto)]

mod questions;

use row_script::answers::{as_it_is, stands_for_itself, with_answer, write_line};
use row_script::devices::Devices;
use row_script::fault::Fault;
use row_script::script::read_call;
use row_script::{devices, disk_calls};
use std::alloc::{AllocError, Global};
use std::io;
use std::io::{BufRead, BufReader, BufWriter, Write};

fn main(rt: HostRuntime) -> io::Result<()> {
    let alloc = rt.alloc();
    let mut devices = Devices::new(alloc);
    let mut out = BufWriter::new(alloc, io::writer(&rt))?;
    for line in BufReader::new(alloc, rt.reader())?.split(alloc, b'\n') {
        let text = reply(alloc, line?.as_slice(), &mut devices)?;
        write_line(&mut out, text.as_str())?;
    }
    out.flush()
}

// What is printed for a line.
fn reply(alloc: Global, line: &[u8], devices: &mut Devices) -> Result<String, AllocError> {
    if stands_for_itself(line) {
        return as_it_is(alloc, line);
    }
    with_answer(alloc, line, answer(alloc, line, devices))
}

// A question, a line that says what a device is made of, or a look at the disk.
fn answer(alloc: Global, line: &[u8], devices: &mut Devices) -> Result<String, Fault> {
    let call = &read_call(alloc, line)?;
    match questions::answer(alloc, call, devices) {
        Err(Fault::Unknown) => {}
        known => return known,
    }
    match devices::answer(alloc, call, devices) {
        Err(Fault::Unknown) => disk_calls::answer(alloc, call, devices),
        known => known,
    }
}

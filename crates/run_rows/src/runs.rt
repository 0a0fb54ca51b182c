// Whole runs of `opam_run` over the devices of the script.
use opam_names::{Items, OutOfMemory, Pkg, Text};
use opam_top::{Ended, Facts, VarValue, opam_run};
use outside_io::{Fate, MemorySink, ScriptShop};
use row_script::devices::Devices;
use row_script::fates::show_fate;
use row_script::fault::Fault;
use row_script::lexer::Word;
use row_script::script::{Call, strings};
use row_script::show::quoted;
use std::alloc::Global;
use std::sync::{Arc, Wait};
use std::thread::Threads;

pub fn answer<R: Threads + Wait + AllocGlobal + Clone + Send + Sync + Drop + 'static>(
    rt: &R,
    call: &Call,
    devices: &mut Devices,
) -> Result<String, Fault> {
    match call.name.as_str() {
        "run" => run(rt, call.words.as_slice(), devices),
        _ => Err(Fault::Unknown),
    }
}

// The words are those of the command line.
fn run<R: Threads + Wait + AllocGlobal + Clone + Send + Sync + Drop + 'static>(
    rt: &R,
    words: &[Word],
    devices: &mut Devices,
) -> Result<String, Fault> {
    let alloc = rt.alloc();
    let words = strings(alloc, words)?;
    let facts = facts(alloc)?;
    let shop = devices.take_shop(alloc)?;
    let text = run_over(rt, words.as_slice(), &facts, &shop, devices);
    devices.keep_shop(shop);
    text
}

fn run_over<R: Threads + Wait + AllocGlobal + Clone + Send + Sync + Drop + 'static>(
    rt: &R,
    words: &[String],
    facts: &Facts,
    shop: &Arc<ScriptShop>,
    devices: &mut Devices,
) -> Result<String, Fault> {
    let alloc = rt.alloc();
    let mut host = devices.take_host(alloc);
    let mut disk = devices.take_disk(alloc);
    let mut out = devices.next_out(alloc);
    let mut err = devices.next_err(alloc);
    let ended = opam_run(
        rt, alloc, words, facts, &mut host, shop, &mut disk, &mut out, &mut err,
    );
    devices.keep_host(host);
    devices.keep_disk(disk);
    show_run(alloc, &ended, &out, &err)
}

const TEXTS: [(&str, &str); 5] = [
    ("arch", "x86_64"),
    ("os", "linux"),
    ("jobs", "1"),
    ("make", "make"),
    ("opam-version", "2.1.0"),
];

const FLAGS: [&str; 4] = ["with-test", "with-doc", "with-dev-setup", "dev"];

// What the program hands in of a machine, with a switch in /w.
pub fn facts(alloc: Global) -> Result<Facts, OutOfMemory> {
    let globals = globals(alloc)?;
    Ok(Facts {
        prefix: Text::from_str(alloc, "/w/_opam")?,
        globals,
        env: Items::new(alloc),
    })
}

fn globals(alloc: Global) -> Result<Items<(Text, VarValue)>, OutOfMemory> {
    let mut globals = Items::new(alloc);
    for (name, value) in TEXTS {
        globals.push(text_global(alloc, name, value)?)?;
    }
    for name in FLAGS {
        globals.push((Text::from_str(alloc, name)?, VarValue::Flag(false)))?;
    }
    Ok(globals)
}

fn text_global(alloc: Global, name: &str, value: &str) -> Result<(Text, VarValue), OutOfMemory> {
    let value = VarValue::Text(Text::from_str(alloc, value)?);
    Ok((Text::from_str(alloc, name)?, value))
}

// The status, and below it the lines that were written, the jobs that were heard and the receipts.
fn show_run(
    alloc: Global,
    ended: &Ended,
    out: &MemorySink,
    err: &MemorySink,
) -> Result<String, Fault> {
    let mut text = format!(in alloc; "status {}", ended.status.number())?;
    push_ended(alloc, &mut text, ended, out, err)?;
    if out.starved() > 0 || err.starved() > 0 {
        text.push_str("\n  an output had no memory")?;
    }
    Ok(text)
}

fn push_ended(
    alloc: Global,
    text: &mut String,
    ended: &Ended,
    out: &MemorySink,
    err: &MemorySink,
) -> Result<(), Fault> {
    push_lines(alloc, text, "out", out.bytes())?;
    push_lines(alloc, text, "err", err.bytes())?;
    for (pkg, fate) in ended.heard.as_slice() {
        push_heard(alloc, text, pkg, *fate)?;
    }
    for receipt in ended.receipts.as_slice() {
        write!(text, "\n  receipt {}", receipt.index)?;
    }
    Ok(())
}

fn push_heard(alloc: Global, text: &mut String, pkg: &Pkg, fate: Fate) -> Result<(), Fault> {
    let pkg = pkg.print(alloc)?;
    let fate = show_fate(alloc, fate)?;
    Ok(write!(text, "\n  heard {pkg} {fate}")?)
}

// Each line in quotes.
fn push_lines(alloc: Global, text: &mut String, what: &str, bytes: &[u8]) -> Result<(), Fault> {
    let mut line = Vec::new(alloc);
    for byte in bytes {
        line.push(*byte)?;
        if *byte == b'\n' {
            push_line(alloc, text, what, line.as_slice())?;
            line.clear();
        }
    }
    if line.is_empty() {
        return Ok(());
    }
    push_line(alloc, text, what, line.as_slice())
}

fn push_line(alloc: Global, text: &mut String, what: &str, line: &[u8]) -> Result<(), Fault> {
    let line = quoted(alloc, line)?;
    Ok(write!(text, "\n  {what} {line}")?)
}

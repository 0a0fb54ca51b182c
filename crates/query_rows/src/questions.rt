// Questions over the devices of the script.
use command_words::{Command, Query, WordFault, read_words};
use opam_filter::VarValue;
use opam_names::{Items, OutOfMemory, Text};
use opam_queries::opam_query;
use outside_io::MemorySink;
use package_vars::Facts;
use row_script::devices::Devices;
use row_script::fault::Fault;
use row_script::lexer::Word;
use row_script::script::{Call, strings};
use row_script::show::quoted;
use run_answers::{Answer, Ended, Status, Stop, answer_with, stop_of_words};
use std::alloc::Global;

pub fn answer(alloc: Global, call: &Call, devices: &mut Devices) -> Result<String, Fault> {
    match call.name.as_str() {
        "ask" => ask(alloc, call.words.as_slice(), devices),
        _ => Err(Fault::Unknown),
    }
}

// The words are those of the command line.
fn ask(alloc: Global, words: &[Word], devices: &mut Devices) -> Result<String, Fault> {
    let words = strings(alloc, words)?;
    match read_words(alloc, words.as_slice()) {
        Ok(Command::Query(query)) => ask_over(alloc, &query, devices),
        Ok(Command::Change(_)) => Err(Fault::Line("the words ask for a change")),
        Err(fault) => refuse(alloc, &fault, devices),
    }
}

fn ask_over(alloc: Global, query: &Query, devices: &mut Devices) -> Result<String, Fault> {
    let facts = facts(alloc)?;
    let mut host = devices.take_host(alloc);
    let mut disk = devices.take_disk(alloc);
    let mut out = devices.next_out(alloc);
    let mut err = devices.next_err(alloc);
    let ended = opam_query(
        alloc, query, &facts, &mut host, &mut disk, &mut out, &mut err,
    );
    devices.keep_host(host);
    devices.keep_disk(disk);
    show_ended(alloc, &ended, &out, &err)
}

fn refuse(alloc: Global, fault: &WordFault, devices: &mut Devices) -> Result<String, Fault> {
    let stop = stop_of_words(alloc, fault);
    let answer: Result<Answer, Stop> = Err(stop);
    let mut out = devices.next_out(alloc);
    let mut err = devices.next_err(alloc);
    let status = answer_with(answer, &mut out, &mut err);
    show(alloc, status, &out, &err)
}

// What the program hands in of a machine, with a switch in /w.
fn facts(alloc: Global) -> Result<Facts, OutOfMemory> {
    let mut globals = Items::new(alloc);
    let linux = VarValue::Text(Text::from_str(alloc, "linux")?);
    globals.push((Text::from_str(alloc, "os")?, linux))?;
    Ok(Facts {
        prefix: Text::from_str(alloc, "/w/_opam")?,
        globals,
        env: Items::new(alloc),
    })
}

fn show_ended(
    alloc: Global,
    ended: &Ended,
    out: &MemorySink,
    err: &MemorySink,
) -> Result<String, Fault> {
    if !ended.heard.is_empty() || !ended.receipts.is_empty() {
        return Err(Fault::Line("a question has changed something"));
    }
    show(alloc, ended.status, out, err)
}

// The status, and below it the lines that were written.
fn show(
    alloc: Global,
    status: Status,
    out: &MemorySink,
    err: &MemorySink,
) -> Result<String, Fault> {
    let mut text = format!(in alloc; "status {}", status.number())?;
    push_lines(alloc, &mut text, "out", out.bytes())?;
    push_lines(alloc, &mut text, "err", err.bytes())?;
    Ok(text)
}

// Each line in quotes.
fn push_lines(alloc: Global, text: &mut String, what: &str, bytes: &[u8]) -> Result<(), Fault> {
    let mut line = Vec::new(alloc);
    for byte in bytes {
        line.push(*byte)?;
        if *byte == b'\n' {
            push_line(alloc, text, what, line.as_slice())?;
            line.clear();
        }
    }
    if line.is_empty() {
        return Ok(());
    }
    push_line(alloc, text, what, line.as_slice())
}

fn push_line(alloc: Global, text: &mut String, what: &str, line: &[u8]) -> Result<(), Fault> {
    let line = quoted(alloc, line)?;
    Ok(write!(text, "\n  {what} {line}")?)
}

// How a line of a script is answered.
use crate::fault::Fault;
use std::alloc::{AllocError, Global};
use std::io;
use std::io::Write;

/// Blank lines and comments stand for themselves.
pub fn stands_for_itself(line: &[u8]) -> bool {
    line.is_empty() || line[0] == b'#'
}

/// The line that is printed for one that stands for itself.
pub fn as_it_is(alloc: Global, line: &[u8]) -> Result<String, AllocError> {
    match str::from_utf8(line) {
        Ok(text) => String::from_str(alloc, text),
        Err(_) => String::from_str(alloc, NO_TEXT),
    }
}

/// The line that is printed for a call: the call, and behind it what came of it, or why nothing did.
pub fn with_answer(
    alloc: Global,
    line: &[u8],
    answer: Result<String, Fault>,
) -> Result<String, AllocError> {
    let Ok(text) = str::from_utf8(line) else {
        return String::from_str(alloc, NO_TEXT);
    };
    match answer {
        Ok(answer) => format!(in alloc; "{text} -> {answer}"),
        Err(Fault::Line(why)) => no_call(alloc, text, why),
        Err(Fault::Unknown) => no_call(alloc, text, UNKNOWN),
        Err(Fault::Memory) => format!(in alloc; "{text} -> out of memory"),
    }
}

fn no_call(alloc: Global, text: &str, why: &str) -> Result<String, AllocError> {
    format!(in alloc; "{text} -> no call: {why}")
}

/// Writes a line.
pub fn write_line<W: Write>(out: &mut W, text: &str) -> io::Result<()> {
    writeln!(out, "{text}")
}

const NO_TEXT: &str = "a line that is no UTF-8 text";

const UNKNOWN: &str = "there is none of this name with so many words";

// How values are shown: texts in quotes with the escapes of a script, and of long ones the beginning and the length.
use crate::fault::Fault;
use std::alloc::Global;

/// Longer texts are cut here, in bytes.
const SHOWN: usize = 100;

/// A text in quotes.
pub fn quoted(alloc: Global, bytes: &[u8]) -> Result<String, Fault> {
    let (begin, rest) = bytes.split_at(bytes.len().min(SHOWN));
    let text = in_quotes(alloc, begin)?;
    if rest.is_empty() {
        return Ok(text);
    }
    let left = rest.len();
    Ok(format!(in alloc; "{text} and {left} bytes more")?)
}

fn in_quotes(alloc: Global, bytes: &[u8]) -> Result<String, Fault> {
    let mut text = String::new(alloc);
    push_quoted(&mut text, bytes)?;
    Ok(text)
}

/// Adds a text in quotes, whole.
pub fn push_quoted(text: &mut String, bytes: &[u8]) -> Result<(), Fault> {
    text.push_str("\"")?;
    for byte in bytes {
        push_byte(text, *byte)?;
    }
    Ok(text.push_str("\"")?)
}

fn push_byte(text: &mut String, byte: u8) -> Result<(), Fault> {
    match byte {
        b'\n' => text.push_str("\\n")?,
        b'"' => text.push_str("\\\"")?,
        b'\\' => text.push_str("\\\\")?,
        b' '..=b'~' => text.push(char::from(byte))?,
        _ => write!(text, "\\x{byte:02x}")?,
    }
    Ok(())
}

/// `yes` or `no`.
pub fn answered(alloc: Global, answer: bool) -> Result<String, Fault> {
    plain(alloc, if answer { "yes" } else { "no" })
}

/// A text as it is.
pub fn plain(alloc: Global, text: &str) -> Result<String, Fault> {
    Ok(String::from_str(alloc, text)?)
}

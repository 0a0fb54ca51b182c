// Batches of writes, as they stand in a line: `a "text" b removed c text`, each path with the text that is put there,
// executable where it stands without quotes.
use crate::fault::Fault;
use crate::lexer::Word;
use crate::show::push_quoted;
use crate::values::path_of;
use crash_disk::Write;
use opam_names::{Items, RelPath};
use std::alloc::Global;

/// The writes that words say.
pub fn writes_of(alloc: Global, words: &[Word]) -> Result<Items<Write>, Fault> {
    let mut writes = Items::new(alloc);
    let mut path = None;
    for word in words {
        path = add_write(alloc, &mut writes, path, word)?;
    }
    match path {
        None => Ok(writes),
        Some(_) => Err(Fault::Line("a path has no text")),
    }
}

// A path is kept until its text comes.
fn add_write(
    alloc: Global,
    writes: &mut Items<Write>,
    path: Option<RelPath>,
    word: &Word,
) -> Result<Option<RelPath>, Fault> {
    let Some(path) = path else {
        return Ok(Some(path_of(alloc, word)?));
    };
    if word.is("removed") {
        writes.push(Write::Remove { path })?;
        return Ok(None);
    }
    let bytes = Items::from_slice(alloc, word.bytes.as_slice())?;
    let exec = !word.quoted;
    writes.push(Write::Put { path, bytes, exec })?;
    Ok(None)
}

/// Adds writes to a text, each after a blank.
pub fn push_writes(text: &mut String, writes: &[Write]) -> Result<(), Fault> {
    for write in writes {
        push_write(text, write)?;
    }
    Ok(())
}

fn push_write(text: &mut String, write: &Write) -> Result<(), Fault> {
    match write {
        Write::Put { path, bytes, exec } => {
            text.push_str(if *exec { " put executable " } else { " put " })?;
            text.push_str(path.as_str())?;
            text.push_str(" ")?;
            push_quoted(text, bytes.as_slice())
        }
        Write::Remove { path } => {
            text.push_str(" remove ")?;
            Ok(text.push_str(path.as_str())?)
        }
    }
}

// Calls of `install_sections`. Up to eight files are shown, of more their number.
use crate::spans::{show_at, show_doubled};
use install_sections::{InstallFault, Layout, Placement, Section, read_install};
use row_script::fault::Fault;
use row_script::lexer::Word;
use row_script::script::Call;
use row_script::show::{plain, push_quoted};
use row_script::values::name_of;
use std::alloc::Global;
use syntax_trees::{FILE_LIMIT, SyntaxFault};

/// More files are counted.
const SHOWN: usize = 8;

pub fn answer(alloc: Global, call: &Call) -> Result<String, Fault> {
    let words = call.words.as_slice();
    match call.name.as_str() {
        "Section::named" => show_section(alloc, words),
        "read_install" => read(alloc, words),
        _ => Err(Fault::Unknown),
    }
}

fn show_section(alloc: Global, words: &[Word]) -> Result<String, Fault> {
    let [name] = words else {
        return Err(Fault::Unknown);
    };
    let Some(section) = Section::named(name.text()?) else {
        return plain(alloc, "none");
    };
    let folder = section.folder.as_str();
    let layout = layout_word(section.layout);
    let exec = if section.exec { " executable" } else { "" };
    Ok(format!(in alloc; "{folder} {layout}{exec}")?)
}

fn layout_word(layout: Layout) -> &'static str {
    match layout {
        Layout::Own => "own",
        Layout::Shared => "shared",
        Layout::Pages => "pages",
    }
}

fn read(alloc: Global, words: &[Word]) -> Result<String, Fault> {
    let [name, text] = words else {
        return Err(Fault::Unknown);
    };
    let bytes = text.bytes.as_slice();
    if bytes.len() > FILE_LIMIT {
        return Err(Fault::Line("the text is too long"));
    }
    match read_install(alloc, bytes, &name_of(alloc, name)?) {
        Ok(placements) => show_files(alloc, placements.as_slice()),
        Err(fault) => show_fault(alloc, fault),
    }
}

fn show_files(alloc: Global, placements: &[Placement]) -> Result<String, Fault> {
    let count = placements.len();
    if count > SHOWN {
        return Ok(format!(in alloc; "{count} files")?);
    }
    if count == 0 {
        return plain(alloc, "nothing");
    }
    let mut text = String::new(alloc);
    for placement in placements {
        push_file(&mut text, placement)?;
    }
    Ok(text)
}

fn push_file(text: &mut String, placement: &Placement) -> Result<(), Fault> {
    if !text.is_empty() {
        text.push_str(", ")?;
    }
    if placement.optional {
        text.push_str("optional ")?;
    }
    push_quoted(text, placement.src.as_str().as_bytes())?;
    text.push_str(" to ")?;
    push_quoted(text, placement.dst.as_str().as_bytes())?;
    if placement.exec {
        text.push_str(" executable")?;
    }
    Ok(())
}

fn show_fault(alloc: Global, fault: InstallFault) -> Result<String, Fault> {
    match fault {
        InstallFault::Syntax(SyntaxFault::Doubled { at }) => show_doubled(alloc, at),
        InstallFault::Syntax(_) => plain(alloc, "no file"),
        InstallFault::UnknownSection { span } => show_at(alloc, "unknown section", span),
        InstallFault::Misc { span } => show_at(alloc, "misc", span),
        InstallFault::NotAnItem { span } => show_at(alloc, "not an item", span),
        InstallFault::Unsafe { span } => show_at(alloc, "unsafe", span),
        InstallFault::TooMany { span } => show_at(alloc, "too many", span),
        InstallFault::Memory => Err(Fault::Memory),
    }
}

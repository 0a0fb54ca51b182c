// Calls of `opam_syntax`.
use crate::trees::{read_tree, syntax_word};
use indexmap::IndexMap;
use opam_syntax::print_file;
use row_script::fault::Fault;
use row_script::lexer::Word;
use row_script::script::{Call, same};
use row_script::show::quoted;
use sqlite_items::Items;
use std::alloc::Global;
use syntax_trees::{File, Item, Key, Label, Node};

pub fn answer(alloc: Global, call: &Call) -> Result<String, Fault> {
    let words = call.words.as_slice();
    match call.name.as_str() {
        "print_file" => print_words(alloc, words),
        "print_section" => print_section(alloc, words),
        _ => Err(Fault::Unknown),
    }
}

fn print_words(alloc: Global, words: &[Word]) -> Result<String, Fault> {
    match words {
        [] => print(alloc, &empty_file(alloc)),
        [name, tree @ ..] => print_field(alloc, name, tree),
    }
}

fn print(alloc: Global, file: &File) -> Result<String, Fault> {
    quoted(alloc, print_file(alloc, file)?.as_slice())
}

/// A file with nothing in it.
pub fn empty_file(alloc: Global) -> File {
    File {
        items: IndexMap::new(alloc),
        places: Items::new(alloc),
    }
}

// A file of one field.
fn print_field(alloc: Global, name: &Word, tree: &[Word]) -> Result<String, Fault> {
    let key = Key {
        name: syntax_word(alloc, name.text()?)?,
        section: false,
        label: None,
    };
    let mut file = empty_file(alloc);
    file.items
        .insert(key, Item::Field(read_tree(alloc, tree)?))?;
    print(alloc, &file)
}

// A file of one section with one field; `-` is no label.
fn print_section(alloc: Global, words: &[Word]) -> Result<String, Fault> {
    let [name, label, field, tree @ ..] = words else {
        return Err(Fault::Unknown);
    };
    let key = Key {
        name: syntax_word(alloc, name.text()?)?,
        section: true,
        label: label_of(alloc, label)?,
    };
    let mut file = empty_file(alloc);
    file.items.insert(key, section_of(alloc, field, tree)?)?;
    print(alloc, &file)
}

fn label_of(alloc: Global, label: &Word) -> Result<Option<Label>, Fault> {
    if label.is("-") {
        return Ok(None);
    }
    Ok(Some(Label::from_vec(same(alloc, label)?)))
}

/// A section of one field.
pub fn section_of(alloc: Global, field: &Word, tree: &[Word]) -> Result<Item, Fault> {
    let mut fields = IndexMap::new(alloc);
    let node: Node = read_tree(alloc, tree)?;
    fields.insert(syntax_word(alloc, field.text()?)?, node)?;
    Ok(Item::Section(fields))
}

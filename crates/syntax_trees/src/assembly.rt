// From items as they are read to a file with its maps.
ghost use Rattle.std.specs.Prelude.{◌≡◌, ◌++◌, ◌∷◌, ◌&&◌, [], false, None, Some, IfErr, IfOk, OnOk, bytes_eq, if◌then◌else◌};
ghost use Rattle.std.specs.List.{list_any};
ghost use Rattle.indexmap.specs.IndexMap.{keys};
ghost use Rattle.syntax_trees.specs.Assembly.{TellsDoubled, contents_twice, entries_twice, fields_twice, is_section, told_entries, told_entry};
ghost use Rattle.syntax_trees.specs.Doubles.{key_eq};
ghost use Rattle.syntax_trees.specs.Read.{field_of, read_contents, read_entries, read_fields};
ghost use Rattle.syntax_trees.specs.Trees.{HasEntries, contents_of};

use crate::entry::{ReadContents, ReadEntry, ReadField};
use crate::{File, Item, Key, Node, SyntaxFault, Word};
use indexmap::IndexMap;
use sqlite_items::Items;
use std::alloc::Global;

/// The file that has these items. A fault is that of the first name that is doubled.
pub fn assemble(alloc: Global, entries: Vec<ReadEntry>) -> Result<File, SyntaxFault>
    ensures entries { IfOk result (λ file. HasEntries file (read_entries entries.items)) }
    ensures single { OnOk result (entries_twice [] entries.items ≡ None) }
    ensures err { IfErr result (TellsDoubled (entries_twice [] entries.items)) }
{
    let mut left = entries;
    left.reverse();
    let mut items = IndexMap::new(alloc);
    let mut places = Items::new(alloc);
    while let Some(entry) = left.pop() {
        places.push(entry.span)?;
        add_entry(alloc, &mut items, entry)?;
    }
    Ok(File { items, places })
}

fn add_entry(
    alloc: Global,
    items: &mut IndexMap<Key, Item>,
    entry: ReadEntry,
) -> Result<(), SyntaxFault>
    ensures key { OnOk result (list_any (key_eq entry.key) (keys items.old) ≡ false) }
    ensures names { OnOk result (contents_twice entry.contents ≡ None) }
    ensures added { OnOk result (told_entries items.new.entries
        ≡ told_entries items.old.entries ++ told_entry entry ∷ []) }
    ensures keys { OnOk result (keys items.new ≡ keys items.old ++ entry.key ∷ []) }
    ensures err { IfErr result (TellsDoubled (if list_any (key_eq entry.key) (keys items.old)
        then Some entry.span.start else contents_twice entry.contents)) }
{
    if is_doubled_section(items, &entry) {
        return Err(SyntaxFault::Doubled {
            at: entry.span.start,
        });
    }
    match make_item(alloc, entry.contents) {
        Ok(item) => add_item(items, entry.key, item, entry.span.start),
        Err(fault) => Err(fault),
    }
}

// A section's key is told before the names in it.
fn is_doubled_section(items: &IndexMap<Key, Item>, entry: &ReadEntry) -> bool
    ensures { result ≡ (is_section entry.now.contents
        && list_any (key_eq entry.now.key) (keys items.now)) }
{
    match &entry.contents {
        ReadContents::Field(_) => false,
        ReadContents::Section(_) => items.contains_key(&entry.key),
    }
}

fn make_item(alloc: Global, contents: ReadContents) -> Result<Item, SyntaxFault>
    ensures item { IfOk result (λ item. contents_of item ≡ read_contents contents) }
    ensures single { OnOk result (contents_twice contents ≡ None) }
    ensures err { IfErr result (TellsDoubled (contents_twice contents)) }
{
    match contents {
        ReadContents::Field(value) => Ok(Item::Field(value)),
        ReadContents::Section(fields) => match make_section(alloc, fields) {
            Ok(section) => Ok(Item::Section(section)),
            Err(fault) => Err(fault),
        },
    }
}

fn add_item(
    items: &mut IndexMap<Key, Item>,
    key: Key,
    item: Item,
    place: u32,
) -> Result<(), SyntaxFault>
    ensures key { OnOk result (list_any (key_eq key) (keys items.old) ≡ false) }
    ensures entries { OnOk result (items.new.entries ≡ items.old.entries ++ (key, item) ∷ []) }
    ensures err { IfErr result (TellsDoubled
        (if list_any (key_eq key) (keys items.old) then Some place else None)) }
{
    match items.insert(key, item)? {
        None => Ok(()),
        Some(_) => Err(SyntaxFault::Doubled { at: place }),
    }
}

// The fields of a section.
fn make_section(
    alloc: Global,
    fields: opam_names::Items<ReadField>,
) -> Result<IndexMap<Word, Node>, SyntaxFault>
    ensures fields { IfOk result (λ map. map.entries ≡ read_fields fields) }
    ensures single { OnOk result (fields_twice [] fields ≡ None) }
    ensures err { IfErr result (TellsDoubled (fields_twice [] fields)) }
{
    let mut left = fields.into_vec();
    left.reverse();
    let mut section = IndexMap::new(alloc);
    while let Some(field) = left.pop() {
        add_field(&mut section, field)?;
    }
    Ok(section)
}

fn add_field(section: &mut IndexMap<Word, Node>, field: ReadField) -> Result<(), SyntaxFault>
    ensures single { OnOk result (list_any (bytes_eq field.name) (keys section.old) ≡ false) }
    ensures fields { OnOk result (section.new.entries
        ≡ section.old.entries ++ field_of field ∷ []) }
    ensures err { IfErr result (TellsDoubled
        (if list_any (bytes_eq field.name) (keys section.old) then Some field.place else None)) }
{
    match section.insert(field.name, field.value)? {
        None => Ok(()),
        Some(_) => Err(SyntaxFault::Doubled { at: field.place }),
    }
}

// Install texts.
ghost use Rattle.std.specs.Prelude.{◌≡◌, ◌++◌, IfOk, OnOk};
ghost use Rattle.std.specs.List.{list_all};
ghost use Rattle.opam_names.specs.Paths.{is_part};
ghost use Rattle.opam_top.specs.InstallTexts.{are_items, further, install_text, is_item, is_item_byte, read_items, spaced};

use crate::spelling::{is_spelling, push_in_quotes, quoted_texts};
use opam_names::{Items, OutOfMemory};
use std::alloc::Global;

// What an install text has under `bin`, or `None` where it is not built.
pub fn items_of(alloc: Global, bytes: &[u8]) -> Result<Option<Items<Items<u8>>>, OutOfMemory>
    ensures { IfOk result (λ items. items ≡ read_items bytes.now) }
{
    if bytes.is_empty() {
        return Ok(Some(Items::new(alloc)));
    }
    let items = quoted_texts(alloc, bytes)?;
    if !all_are_items(items.as_slice()) {
        return Ok(None);
    }
    let text = text_of_items(alloc, items.as_slice())?;
    if is_spelling(bytes, text.as_slice()) {
        Ok(Some(items))
    } else {
        Ok(None)
    }
}

fn all_are_items(items: &[Items<u8>]) -> bool
    ensures { result ≡ are_items items.now }
{
    items.len() <= 65536 && all_name_files(items)
}

fn all_name_files(items: &[Items<u8>]) -> bool
    ensures { result ≡ list_all is_item items.now }
{
    for item in items {
        if !names_a_file(item.as_slice()) {
            return false;
        }
    }
    true
}

fn names_a_file(item: &[u8]) -> bool
    ensures { result ≡ is_item item.now }
{
    has_item_bytes(item) && is_good_part(item) && item.len() <= 1020
}

fn has_item_bytes(item: &[u8]) -> bool
    ensures { result ≡ list_all is_item_byte item.now }
{
    item.iter().all(|byte| item_byte(*byte))
}

fn item_byte(byte: u8) -> bool
    ensures { result ≡ is_item_byte byte }
{
    byte.is_ascii_alphabetic()
        || byte.is_ascii_digit()
        || byte == b'_'
        || byte == b'-'
        || byte == b'.'
}

fn is_good_part(item: &[u8]) -> bool
    ensures { result ≡ is_part item.now }
{
    !item.is_empty() && item != b".".as_slice() && item != b"..".as_slice()
}

// The canonical spelling.
fn text_of_items(alloc: Global, items: &[Items<u8>]) -> Result<Vec<u8>, OutOfMemory>
    ensures { IfOk result (λ text. text.items ≡ install_text items.now) }
{
    let mut text = Vec::from_slice(alloc, b"bin: [")?;
    push_spaced(&mut text, items)?;
    text.extend_from_slice(b"]\n")?;
    Ok(text)
}

fn push_spaced(text: &mut Vec<u8>, items: &[Items<u8>]) -> Result<(), OutOfMemory>
    ensures { OnOk result (text.new.items ≡ text.old.items ++ spaced items.now) }
{
    match items {
        [] => Ok(()),
        [first, more @ ..] => {
            push_in_quotes(text, first.as_slice())?;
            push_further(text, more)
        }
    }
}

fn push_further(text: &mut Vec<u8>, items: &[Items<u8>]) -> Result<(), OutOfMemory>
    ensures { OnOk result (text.new.items ≡ text.old.items ++ further items.now) }
{
    for item in items {
        text.extend_from_slice(b" ")?;
        push_in_quotes(text, item.as_slice())?;
    }
    Ok(())
}

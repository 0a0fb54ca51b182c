// Calls of `Items` and `Buffer`, on lists of texts.
ghost use Rattle.std.specs.Prelude.{◌<◌, ◌≤◌, IfOk, length};

use opam_names::{Buffer, Items, Text};
use row_script::fault::Fault;
use row_script::lexer::Word;
use row_script::script::Call;
use row_script::show::{answered, plain, push_quoted, quoted};
use std::alloc::Global;

/// No buffer of a script has more room.
const MOST_ROOM: u64 = 1000000;

pub fn answer(alloc: Global, call: &Call) -> Result<String, Fault> {
    let name = call.name.as_str();
    let words = call.words.as_slice();
    match name {
        "Items::clear" => clear(alloc, words),
        "Items::pop" => pop(alloc, words),
        "Items::last" => last(alloc, words),
        "Items::len" => len(alloc, words),
        "Items::is_empty" => is_empty(alloc, words),
        "Items::sort_by_bytes" => sort(alloc, words),
        "Items::from_slice" => copy_bytes(alloc, words),
        "Items::from_vec" => there_and_back(alloc, words),
        _ => answer_first(alloc, name, words),
    }
}

// Calls with a word before those of the list.
fn answer_first(alloc: Global, name: &str, words: &[Word]) -> Result<String, Fault> {
    let [first, words @ ..] = words else {
        return Err(Fault::Unknown);
    };
    match name {
        "Items::push" => push(alloc, first, words),
        "Items::remove" => remove(alloc, first, words),
        "Items::truncate" => truncate(alloc, first, words),
        "Items::get" => get(alloc, first, words),
        "Buffer::push" => fill(alloc, first, words),
        "Buffer::truncate" => cut_buffer(alloc, first, words),
        _ => answer_second(alloc, name, first, words),
    }
}

// Calls with two words before those of the list.
fn answer_second(alloc: Global, name: &str, first: &Word, words: &[Word]) -> Result<String, Fault> {
    let [second, words @ ..] = words else {
        return Err(Fault::Unknown);
    };
    match name {
        "Items::insert" => insert(alloc, first, second, words),
        "Items::set" => set(alloc, first, second, words),
        "Items::swap" => swap(alloc, first, second, words),
        _ => Err(Fault::Unknown),
    }
}

fn text_of(alloc: Global, word: &Word) -> Result<Text, Fault> {
    Ok(Text::from_str(alloc, word.text()?)?)
}

fn texts(alloc: Global, words: &[Word]) -> Result<Items<Text>, Fault> {
    let mut items = Items::new(alloc);
    for word in words {
        items.push(text_of(alloc, word)?)?;
    }
    Ok(items)
}

// A place in a list, or at its end.
fn place_within(word: &Word, items: &Items<Text>) -> Result<usize, Fault>
    ensures { IfOk result (λ at. at ≤ length items.now) }
{
    let at = word.number()?;
    if at <= items.len() as u64 {
        Ok(at as usize)
    } else {
        Err(Fault::Line("the list has no such place"))
    }
}

// The place of one of a list's elements.
fn place_in(word: &Word, items: &Items<Text>) -> Result<usize, Fault>
    ensures { IfOk result (λ at. at < length items.now) }
{
    let at = place_within(word, items)?;
    if at < items.len() {
        Ok(at)
    } else {
        Err(Fault::Line("the list has no such place"))
    }
}

fn show(alloc: Global, items: &[Text]) -> Result<String, Fault> {
    let mut text = String::from_str(alloc, "list:")?;
    push_texts(&mut text, items)?;
    Ok(text)
}

fn push_texts(text: &mut String, items: &[Text]) -> Result<(), Fault> {
    for item in items {
        text.push_str(" ")?;
        push_quoted(text, item.as_str().as_bytes())?;
    }
    Ok(())
}

fn push(alloc: Global, item: &Word, words: &[Word]) -> Result<String, Fault> {
    let mut items = texts(alloc, words)?;
    items.push(text_of(alloc, item)?)?;
    show(alloc, items.as_slice())
}

fn insert(alloc: Global, at: &Word, item: &Word, words: &[Word]) -> Result<String, Fault> {
    let mut items = texts(alloc, words)?;
    let at = place_within(at, &items)?;
    items.insert(at, text_of(alloc, item)?)?;
    show(alloc, items.as_slice())
}

fn remove(alloc: Global, at: &Word, words: &[Word]) -> Result<String, Fault> {
    let mut items = texts(alloc, words)?;
    let at = place_in(at, &items)?;
    let item = items.remove(at);
    show_taken(alloc, &item, items.as_slice())
}

fn show_taken(alloc: Global, item: &Text, left: &[Text]) -> Result<String, Fault> {
    let mut text = quoted(alloc, item.as_str().as_bytes())?;
    text.push_str(" of list:")?;
    push_texts(&mut text, left)?;
    Ok(text)
}

fn set(alloc: Global, at: &Word, item: &Word, words: &[Word]) -> Result<String, Fault> {
    let mut items = texts(alloc, words)?;
    let at = place_in(at, &items)?;
    items.set(at, text_of(alloc, item)?);
    show(alloc, items.as_slice())
}

fn swap(alloc: Global, one: &Word, other: &Word, words: &[Word]) -> Result<String, Fault> {
    let mut items = texts(alloc, words)?;
    let one = place_in(one, &items)?;
    let other = place_in(other, &items)?;
    items.swap(one, other);
    show(alloc, items.as_slice())
}

fn truncate(alloc: Global, len: &Word, words: &[Word]) -> Result<String, Fault> {
    let mut items = texts(alloc, words)?;
    items.truncate(room_of(len)?);
    show(alloc, items.as_slice())
}

fn clear(alloc: Global, words: &[Word]) -> Result<String, Fault> {
    let mut items = texts(alloc, words)?;
    items.clear();
    show(alloc, items.as_slice())
}

fn pop(alloc: Global, words: &[Word]) -> Result<String, Fault> {
    let mut items = texts(alloc, words)?;
    match items.pop() {
        Some(item) => show_taken(alloc, &item, items.as_slice()),
        None => plain(alloc, "none"),
    }
}

fn show_item(alloc: Global, item: Option<&Text>) -> Result<String, Fault> {
    match item {
        Some(item) => quoted(alloc, item.as_str().as_bytes()),
        None => plain(alloc, "none"),
    }
}

fn get(alloc: Global, at: &Word, words: &[Word]) -> Result<String, Fault> {
    let items = texts(alloc, words)?;
    show_item(alloc, items.get(room_of(at)?))
}

fn last(alloc: Global, words: &[Word]) -> Result<String, Fault> {
    show_item(alloc, texts(alloc, words)?.last())
}

fn len(alloc: Global, words: &[Word]) -> Result<String, Fault> {
    let len = texts(alloc, words)?.len();
    Ok(format!(in alloc; "{len}")?)
}

fn is_empty(alloc: Global, words: &[Word]) -> Result<String, Fault> {
    answered(alloc, texts(alloc, words)?.is_empty())
}

fn sort(alloc: Global, words: &[Word]) -> Result<String, Fault> {
    let mut items = texts(alloc, words)?;
    items.sort_by_bytes()?;
    show(alloc, items.as_slice())
}

fn copy_bytes(alloc: Global, words: &[Word]) -> Result<String, Fault> {
    let [word] = words else {
        return Err(Fault::Unknown);
    };
    let items = Items::from_slice(alloc, word.bytes.as_slice())?;
    quoted(alloc, items.as_slice())
}

fn there_and_back(alloc: Global, words: &[Word]) -> Result<String, Fault> {
    let items = Items::from_vec(texts(alloc, words)?.into_vec());
    show(alloc, items.as_slice())
}

fn room_of(word: &Word) -> Result<usize, Fault> {
    let room = word.number()?;
    if room <= MOST_ROOM {
        Ok(room as usize)
    } else {
        Err(Fault::Line("the number is too large"))
    }
}

// Room for so many is made each time, and a word is put there without memory.
fn fill(alloc: Global, room: &Word, words: &[Word]) -> Result<String, Fault> {
    let room = room_of(room)?;
    let mut pushed = Buffer::new(alloc);
    for word in words {
        put_in(alloc, &mut pushed, room, word)?;
    }
    show(alloc, pushed.into_items().as_slice())
}

fn put_in(alloc: Global, pushed: &mut Buffer<Text>, room: usize, word: &Word) -> Result<(), Fault> {
    let text = text_of(alloc, word)?;
    pushed.reserve(room.max(1))?;
    pushed.push(text);
    Ok(())
}

fn cut_buffer(alloc: Global, len: &Word, words: &[Word]) -> Result<String, Fault> {
    let mut items = Buffer::from_items(texts(alloc, words)?);
    items.truncate(room_of(len)?);
    show_counted(alloc, items.as_slice())
}

fn show_counted(alloc: Global, items: &[Text]) -> Result<String, Fault> {
    let count = items.len();
    let mut text = format!(in alloc; "{count} of list:")?;
    push_texts(&mut text, items)?;
    Ok(text)
}

// Calls of `path_order`, on lists of paths.
ghost use Rattle.std.specs.Prelude.{◌≡◌, List, ℕ, IfOk, map};
ghost use Rattle.path_order.specs.Apart.{AreApart};

use opam_names::RelPath;
use path_order::{above_in, are_apart, place_of, stands_before};
use row_script::fault::Fault;
use row_script::lexer::Word;
use row_script::script::Call;
use row_script::show::{answered, plain};
use row_script::values::path_of;
use std::alloc::Global;

/// A path, and its place among the words.
type Numbered = (RelPath, usize);

pub fn answer(alloc: Global, call: &Call) -> Result<String, Fault> {
    let words = call.words.as_slice();
    match call.name.as_str() {
        "are_apart" => stand_apart(alloc, words),
        "place_of" => find_place(alloc, words),
        "above_in" => find_above(alloc, words),
        "stands_before" => stand_before(alloc, words),
        _ => Err(Fault::Unknown),
    }
}

fn stand_apart(alloc: Global, words: &[Word]) -> Result<String, Fault> {
    answered(alloc, are_apart(listed(alloc, words)?.as_slice()))
}

fn stand_before(alloc: Global, words: &[Word]) -> Result<String, Fault> {
    let [one, other] = words else {
        return Err(Fault::Unknown);
    };
    answered(
        alloc,
        stands_before(one.bytes.as_slice(), other.bytes.as_slice()),
    )
}

fn listed(alloc: Global, words: &[Word]) -> Result<Vec<Numbered>, Fault> {
    let mut list = Vec::new(alloc);
    for word in words {
        list.push((path_of(alloc, word)?, list.len()))?;
    }
    Ok(list)
}

// A list for a search.
fn apart(alloc: Global, words: &[Word]) -> Result<Vec<Numbered>, Fault>
    ensures { IfOk result (λ list. AreApart (map (λ entry. entry.0) list.items)) }
{
    let list = listed(alloc, words)?;
    if are_apart(list.as_slice()) {
        Ok(list)
    } else {
        Err(Fault::Line("the paths do not rise, or one is above another"))
    }
}

fn find_place(alloc: Global, words: &[Word]) -> Result<String, Fault> {
    let [text, words @ ..] = words else {
        return Err(Fault::Unknown);
    };
    let list = apart(alloc, words)?;
    let place = place_of(list.as_slice(), text.bytes.as_slice());
    Ok(format!(in alloc; "{place}")?)
}

fn find_above(alloc: Global, words: &[Word]) -> Result<String, Fault> {
    let [path, words @ ..] = words else {
        return Err(Fault::Unknown);
    };
    let path = path_of(alloc, path)?;
    let list = apart(alloc, words)?;
    match above_in(list.as_slice(), &path) {
        Some(place) => Ok(format!(in alloc; "at {place}")?),
        None => plain(alloc, "none"),
    }
}

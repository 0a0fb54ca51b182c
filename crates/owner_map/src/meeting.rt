// What a list of paths in byte order has that is the same as a path, above or below it, found by halves.
ghost use Rattle.std.specs.Prelude.{◌≡◌, []};
ghost use Rattle.std.specs.List.{find};
ghost use Rattle.std.specs.Option.{option_copied};
ghost use Rattle.opam_names.specs.ByteOrders.{RisesBy, has_key};
ghost use Rattle.opam_names.specs.Paths.{is_above};
ghost use Rattle.owner_map.specs.Searching.{below_bound, is_above_text, is_below_text, meets_text};

use crate::sorted_list::SortedList;
use opam_names::ByteKey;

/// The element with this text.
pub(crate) fn find_text<'a, T: ByteKey + Drop>(
    list: &'a SortedList<T>,
    text: &[u8],
) -> Option<&'a T>
    requires { RisesBy T.key list.now.items }
    ensures { option_copied result ≡ find (has_key T.key text.now) list.now.items }
{
    match list.first_from(text) {
        Some(item) => {
            let same = item.key() == text;
            if same { Some(item) } else { None }
        }
        None => None,
    }
}

/// The first element whose text is above this one: the text up to one of its slashes.
pub(crate) fn find_above<'a, T: ByteKey + Drop>(
    list: &'a SortedList<T>,
    text: &[u8],
) -> Option<&'a T>
    requires { RisesBy T.key list.now.items }
    ensures { option_copied result ≡ find (is_above_text T.key text.now) list.now.items }
{
    for at in 0..text.len() {
        let (front, rest) = text.split_at(at);
        if goes_on_below(rest) {
            match find_text(list, front) {
                Some(item) => return Some(item),
                None => {}
            }
        }
    }
    None
}

// Whether the text is a slash and more.
fn goes_on_below(rest: &[u8]) -> bool
    ensures { result ≡ is_above [] rest.now }
{
    match rest {
        [first, _, ..] => *first == b'/',
        _ => false,
    }
}

// Whether the second text is the first, a slash and more.
fn stands_above(above: &[u8], below: &[u8]) -> bool
    ensures { result ≡ is_above above.now below.now }
{
    if below.len() < above.len() {
        return false;
    }
    let (front, rest) = below.split_at(above.len());
    front == above && goes_on_below(rest)
}

/// The first element whose text is below this one. `bound` is the text, a slash and a zero byte.
pub(crate) fn find_below<'a, T: ByteKey + Drop>(
    list: &'a SortedList<T>,
    text: &[u8],
    bound: &[u8],
) -> Option<&'a T>
    requires rises { RisesBy T.key list.now.items }
    requires bound { bound.now ≡ below_bound text.now }
    ensures { option_copied result ≡ find (is_below_text T.key text.now) list.now.items }
{
    match list.first_from(bound) {
        Some(item) => {
            let below = stands_above(text, item.key());
            if below { Some(item) } else { None }
        }
        None => None,
    }
}

/// The first element whose text is this one, above or below it.
pub(crate) fn find_met<'a, T: ByteKey + Drop>(
    list: &'a SortedList<T>,
    text: &[u8],
    bound: &[u8],
) -> Option<&'a T>
    requires rises { RisesBy T.key list.now.items }
    requires bound { bound.now ≡ below_bound text.now }
    ensures { option_copied result ≡ find (meets_text T.key text.now) list.now.items }
{
    match find_above(list, text) {
        Some(item) => return Some(item),
        None => {}
    }
    match find_text(list, text) {
        Some(item) => return Some(item),
        None => {}
    }
    find_below(list, text, bound)
}

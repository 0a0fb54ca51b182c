// Paths in byte order.
ghost use Rattle.std.specs.Prelude.{◌≡◌, ◌≢◌, ℕ, ◌<◌, ◌≤◌, ◌↔◌, true, false, List, [], map, length, slice_index_or, IsTrue, IfSome, IfNone};
ghost use Rattle.std.specs.declared.cmp.Ordering.TheVariants.{Less};
ghost use Rattle.opam_names.specs.ByteOrders.{RisesBy, byte_order};
ghost use Rattle.opam_names.specs.Paths.{IsPath, is_above};
ghost use Rattle.path_order.specs.Apart.{AreApart};
ghost use Rattle.path_order.specs.Parting.{StandsLast};

use crate::Pathed;
use crate::texts::{common_len, stands_before};
use opam_names::RelPath;

/// How many of the paths stand before this text in byte order.
pub fn place_of<T: Pathed>(list: &[T], text: &[u8]) -> usize
    requires { RisesBy T.path list.now }
    ensures within { result ≤ length list.now }
    ensures before { (k : ℕ) → k < result
        → byte_order (slice_index_or (map T.path list.now) k []) text.now ≡ Less }
    ensures from { (k : ℕ) → result ≤ k → k < length list.now
        → byte_order (slice_index_or (map T.path list.now) k []) text.now ≢ Less }
{
    let mut least = 0;
    let mut most = list.len();
    while least < most {
        let middle = least + (most - least) / 2;
        let before = stands_before(list[middle].path().as_str().as_bytes(), text);
        if before {
            least = middle + 1;
        } else {
            most = middle;
        }
    }
    least
}

/// The place of the path in the list that is above this one.
pub fn above_in<T: Pathed>(list: &[T], path: &RelPath) -> Option<usize>
    requires { AreApart (map T.path list.now) }
    ensures within { IfSome result (λ i. i < length list.now) }
    ensures some { IfSome result (λ i.
        is_above (slice_index_or (map T.path list.now) i []) path.now ≡ true) }
    ensures valid { IfSome result (λ i. IsPath (slice_index_or (map T.path list.now) i [])) }
    ensures none { IfNone result ((k : ℕ) → k < length list.now
        → is_above (slice_index_or (map T.path list.now) k []) path.now ≡ false) }
{
    let text = path.as_str().as_bytes();
    let place = place_of(list, text);
    if place == 0 {
        return None;
    }
    // A path above this one ends where the last path before this one parts from it.
    let len = common_len(list[place - 1].path().as_str().as_bytes(), text);
    if len == text.len() {
        return None;
    }
    if text[len] != b'/' {
        return None;
    }
    let (front, _) = text.split_at(len);
    let at = place_of(list, front);
    if at == list.len() {
        return None;
    }
    let found = list[at].path();
    // The text of a path says that it is one.
    let _text = found.as_str();
    let above = found.above(path);
    if above { Some(at) } else { None }
}

/// Whether the paths rise and none is above another.
pub fn are_apart<T: Pathed>(list: &[T]) -> bool
    ensures { IsTrue result ↔ AreApart (map T.path list.now) }
{
    for i in 1..list.len() {
        let (before, _) = list.split_at(i);
        let last = stands_last(before, list[i].path());
        if !last {
            return false;
        }
    }
    true
}

// Whether the path may stand at the end of paths that are apart.
fn stands_last<T: Pathed>(list: &[T], path: &RelPath) -> bool
    requires apart { AreApart (map T.path list.now) }
    requires some { 0 < length list.now }
    ensures { IsTrue result ↔ StandsLast (map T.path list.now) path.now }
{
    let last = list[list.len() - 1].path();
    let after = stands_before(last.as_str().as_bytes(), path.as_str().as_bytes());
    if !after {
        return false;
    }
    match above_in(list, path) {
        Some(_) => false,
        None => true,
    }
}

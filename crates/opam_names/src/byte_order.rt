// Lists in the byte order of a key.
ghost use Rattle.std.specs.Prelude.{◌≡◌, ◌↔◌, IsTrue, ◌≤◌, OnErr, OnOk, length};
ghost use Rattle.std.specs.List.{list_any};
ghost use Rattle.opam_names.specs.ByteOrders.{NeverFallsBy, RisesBy, count_before, first_of_each_by, has_key, in_order_by, place_of_key};

use crate::{Name, OutOfMemory, Pkg, RelPath, Text};

/// What stands in a list in the order of the bytes of its key.
pub trait ByteKey {
    ghost use Rattle.std.specs.Prelude.{ℕ, List};

    ghost key: { Self → List ℕ };

    fn key(&self) -> &[u8]
        ensures { result.now ≡ key self.now };
}

impl ByteKey for Name {
    ghost key = { λ name. name };

    fn key(&self) -> &[u8] {
        self.as_str().as_bytes()
    }
}

impl ByteKey for Text {
    ghost key = { λ text. text };

    fn key(&self) -> &[u8] {
        self.as_str().as_bytes()
    }
}

impl ByteKey for RelPath {
    ghost key = { λ path. path };

    fn key(&self) -> &[u8] {
        self.as_str().as_bytes()
    }
}

/// A package stands by its name.
impl ByteKey for Pkg {
    ghost key = { λ pkg. pkg.name };

    fn key(&self) -> &[u8] {
        self.name.as_str().as_bytes()
    }
}

/// Puts elements into the byte order of their keys. Those with one key stay as they stood to one another.
pub fn sort_by_bytes<T: ByteKey>(items: &mut Vec<T>) -> Result<(), OutOfMemory>
    ensures ok { OnOk result (items.new.items ≡ in_order_by T.key items.old.items) }
    ensures err { OnErr result (items.new.items ≡ items.old.items) }
{
    items.sort_by(|one, other| one.key().cmp(other.key()))?;
    Ok(())
}

/// Of neighbours with one key keeps the first.
pub fn keep_first_of_each<T: ByteKey + Drop>(items: &mut Vec<T>)
    ensures { items.new.items ≡ first_of_each_by T.key items.old.items }
{
    items.dedup_by(|one, other| one.key() == other.key());
}

/// Whether the elements stand in the byte order of their keys, each key once.
pub fn rises_by_bytes<T: ByteKey>(items: &[T]) -> bool
    ensures { IsTrue result ↔ RisesBy T.key items.now }
{
    items.is_sorted_by(|one, next| one.key().cmp(next.key()).is_lt())
}

/// How many elements have keys before this one, found by halves. The elements stand in the byte order of their keys.
pub fn count_before_bytes<T: ByteKey>(items: &[T], key: &[u8]) -> usize
    requires { NeverFallsBy T.key items.now }
    ensures value { result ≡ count_before T.key key.now items.now }
    ensures within { result ≤ length items.now }
{
    items.partition_point(|item| item.key().cmp(key).is_lt())
}

/// Where the first element with this key stands, found by halves. The elements stand in the byte order of their keys.
pub fn find_by_bytes<T: ByteKey>(items: &[T], key: &[u8]) -> Option<usize>
    requires { NeverFallsBy T.key items.now }
    ensures { result ≡ place_of_key T.key key.now items.now }
{
    let place = count_before_bytes(items, key);
    if place == items.len() {
        return None;
    }
    if items[place].key() == key {
        Some(place)
    } else {
        None
    }
}

/// Whether an element has this key, found by halves. The elements stand in the byte order of their keys.
pub fn has_bytes<T: ByteKey>(items: &[T], key: &[u8]) -> bool
    requires { NeverFallsBy T.key items.now }
    ensures { result ≡ list_any (has_key T.key key.now) items.now }
{
    find_by_bytes(items, key).is_some()
}

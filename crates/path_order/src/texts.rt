// Texts in byte order, and their fronts.
ghost use Rattle.std.specs.Prelude.{◌≡◌, ◌≤◌, ◌↔◌, length, IsTrue};
ghost use Rattle.std.specs.declared.cmp.Ordering.TheVariants.{Less};
ghost use Rattle.opam_names.specs.ByteOrders.{byte_order};
ghost use Rattle.path_order.specs.Parting.{common_len};

use std::cmp::Ordering;

/// Whether the first text stands before the second in byte order.
pub fn stands_before(first: &[u8], second: &[u8]) -> bool
    ensures { IsTrue result ↔ (byte_order first.now second.now ≡ Less) }
{
    match first.cmp(second) {
        Ordering::Less => true,
        Ordering::Equal => false,
        Ordering::Greater => false,
    }
}

/// How many bytes two texts have in common at their front.
pub(crate) fn common_len(a: &[u8], b: &[u8]) -> usize
    ensures value { result ≡ common_len a.now b.now }
    ensures first { result ≤ length a.now }
    ensures second { result ≤ length b.now }
{
    let mut left = a;
    let mut other = b;
    let mut len = 0;
    while let [x, more @ ..] = left {
        match other {
            [y, rest @ ..] if x == y => {
                left = more;
                other = rest;
                len += 1;
            }
            _ => return len,
        }
    }
    len
}

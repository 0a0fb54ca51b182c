// The order of versions.
ghost use Rattle.std.specs.Prelude.{◌≡◌, ◌≤◌, IsTrue, length, drop};
ghost use Rattle.std.specs.List.{list_all, prefix_len};
ghost use Rattle.std.specs.Ordering.{nat_cmp};
ghost use Rattle.opam_names.specs.Names.{is_digit};
ghost use Rattle.opam_names.specs.Orders.{after_run, first_rank, first_run, is_no_digit, is_zero, number, rank, run_of, run_order, significant, text_order, word_order};

use std::cmp::Ordering;

/// The order of texts that versions have: alternating runs of non-digits and of digits are compared from the left. In a
/// run of non-digits `~` comes first, then the end of the run, then letters, then all others; digits compare as numbers
/// of any size (Debian policy, control files: Version).
pub fn text_order(a: &str, b: &str) -> Ordering
    ensures { result ≡ text_order a.now b.now }
{
    bytes_order(a.as_bytes(), b.as_bytes())
}

fn bytes_order(a: &[u8], b: &[u8]) -> Ordering
    ensures { result ≡ text_order a.now b.now }
{
    let mut a = a;
    let mut b = b;
    while !(a.is_empty() && b.is_empty()) {
        let first = Run::first(a);
        let second = Run::first(b);
        match run_order(&first, &second) {
            Ordering::Equal => {}
            decided => return decided,
        }
        a = first.rest;
        b = second.rest;
    }
    Ordering::Equal
}

// The first run of a text, and what follows it.
#[derive(Clone, Copy)]
struct Run<'a> {
    word: &'a [u8],
    digits: &'a [u8],
    rest: &'a [u8],
}

impl<'a> Run<'a> {
    fn first(text: &'a [u8]) -> Run<'a>
        ensures run { run_of result.word.now result.digits.now ≡ first_run text.now }
        ensures digits { IsTrue (list_all is_digit result.digits.now) }
        ensures rest { result.rest.now ≡ after_run text.now }
    {
        let (word, rest) = text.split_at(word_len(text));
        let (digits, rest) = rest.split_at(digits_len(rest));
        Run { word, digits, rest }
    }
}

// How many bytes of the front are no digits.
fn word_len(text: &[u8]) -> usize
    ensures value { result ≡ prefix_len is_no_digit text.now }
    ensures within { result ≤ length text.now }
{
    text.iter().take_while(|b| !b.is_ascii_digit()).count()
}

// How many bytes of the front are digits.
fn digits_len(text: &[u8]) -> usize
    ensures value { result ≡ prefix_len is_digit text.now }
    ensures within { result ≤ length text.now }
{
    text.iter().take_while(|b| b.is_ascii_digit()).count()
}

fn run_order(a: &Run, b: &Run) -> Ordering
    requires a_digits { IsTrue (list_all is_digit a.now.digits.now) }
    requires b_digits { IsTrue (list_all is_digit b.now.digits.now) }
    ensures { result ≡ run_order (run_of a.now.word.now a.now.digits.now) (run_of b.now.word.now b.now.digits.now) }
{
    match word_order(a.word, b.word) {
        Ordering::Equal => number_order(a.digits, b.digits),
        decided => decided,
    }
}

fn rank(byte: u8) -> u16
    ensures { result ≡ rank byte }
{
    if byte == b'~' {
        0
    } else if byte.is_ascii_alphabetic() {
        u16::from(byte)
    } else {
        256 + u16::from(byte)
    }
}

// The rank of the byte at a place, and that of the end after the last.
fn rank_at(word: &[u8], at: usize) -> u16
    ensures { result ≡ first_rank (drop at word.now) }
{
    if at < word.len() { rank(word[at]) } else { 1 }
}

fn word_order(a: &[u8], b: &[u8]) -> Ordering
    ensures { result ≡ word_order a.now b.now }
{
    let both = a.len().min(b.len());
    for at in 0..both {
        if a[at] != b[at] {
            return rank(a[at]).cmp(&rank(b[at]));
        }
    }
    rank_at(a, both).cmp(&rank_at(b, both))
}

// How many zeros digits begin with.
fn zeros_len(digits: &[u8]) -> usize
    ensures value { result ≡ prefix_len is_zero digits.now }
    ensures within { result ≤ length digits.now }
{
    digits.iter().take_while(|b| **b == b'0').count()
}

// The digits without leading zeros.
fn significant(digits: &[u8]) -> &[u8]
    ensures { result.now ≡ significant digits.now }
{
    &digits[zeros_len(digits)..]
}

fn number_order(a: &[u8], b: &[u8]) -> Ordering
    requires a_digits { IsTrue (list_all is_digit a.now) }
    requires b_digits { IsTrue (list_all is_digit b.now) }
    ensures { result ≡ nat_cmp (number a.now) (number b.now) }
{
    let a = significant(a);
    let b = significant(b);
    match a.len().cmp(&b.len()) {
        Ordering::Equal => a.cmp(b),
        decided => decided,
    }
}

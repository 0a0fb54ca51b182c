// Characters that are cut off.
ghost use Rattle.std.specs.Prelude.{◌≡◌};
ghost use Rattle.opam_names.specs.Cut.{char_len, goes_on, left_after, missing, second_fits, second_least, second_most};

// How many bytes a character has that begins with this byte from 128 on; 0: none begins so.
fn char_len(first: u8) -> usize
    ensures { result ≡ char_len first }
{
    if first < 0xC2 {
        0
    } else if first < 0xE0 {
        2
    } else if first < 0xF0 {
        3
    } else if first < 0xF5 {
        4
    } else {
        0
    }
}

fn second_least(first: u8) -> u8
    ensures { result ≡ second_least first }
{
    if first == 0xE0 {
        0xA0
    } else if first == 0xF0 {
        0x90
    } else {
        0x80
    }
}

fn second_most(first: u8) -> u8
    ensures { result ≡ second_most first }
{
    if first == 0xED {
        0x9F
    } else if first == 0xF4 {
        0x8F
    } else {
        0xBF
    }
}

fn second_fits(first: u8, second: u8) -> bool
    ensures { result ≡ second_fits first second }
{
    second_least(first) <= second && second <= second_most(first)
}

fn goes_on(byte: u8) -> bool
    ensures { result ≡ goes_on byte }
{
    0x80 <= byte && byte <= 0xBF
}

// What a character that begins with this byte lacks after so many bytes.
fn left_after(first: u8, seen: usize) -> Option<usize>
    ensures { result ≡ left_after first seen }
{
    let len = char_len(first);
    if seen < len { Some(len - seen) } else { None }
}

/// How many bytes these lack that begin one character and are none yet.
pub(crate) fn missing(tail: &[u8]) -> Option<usize>
    ensures { result ≡ missing tail.now }
{
    match tail {
        [x] => left_after(*x, 1),
        [x, y] if second_fits(*x, *y) => left_after(*x, 2),
        [x, y, z] if second_fits(*x, *y) && goes_on(*z) => left_after(*x, 3),
        _ => None,
    }
}

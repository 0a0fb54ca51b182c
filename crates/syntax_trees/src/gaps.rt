// What may stand between tokens: blanks and comments.
ghost use Rattle.std.specs.Prelude.{◌≡◌, ◌≤◌, drop, length, IfSome};
ghost use Rattle.syntax_trees.specs.Lexed.{gap_to};
ghost use Rattle.syntax_trees.specs.Tokens.{after_comment, after_line, is_blank};

use crate::texts::begins_at;

pub(crate) fn is_blank(byte: u8) -> bool
    ensures { result ≡ is_blank byte }
{
    byte == b' ' || byte == b'\t' || byte == b'\r' || byte == b'\n'
}

// How many bytes stand up to the end of the line, the newline included.
pub(crate) fn line_len(bytes: &[u8]) -> usize
    ensures after { drop result bytes.now ≡ after_line bytes.now }
    ensures within { result ≤ length bytes.now }
{
    for (at, byte) in bytes.iter().enumerate() {
        if *byte == b'\n' {
            return at + 1;
        }
    }
    bytes.len()
}

// How many bytes stand up to the end of a comment, its `*)` included.
pub(crate) fn comment_len(bytes: &[u8]) -> Option<usize>
    ensures after { gap_to bytes.now result ≡ after_comment bytes.now }
    ensures within { IfSome result (λ len. len ≤ length bytes.now) }
{
    for (at, byte) in bytes.iter().enumerate() {
        if *byte == b'*' && begins_at(bytes, at + 1, b')') {
            return Some(at + 2);
        }
    }
    None
}

// Signs: the longest that fits is taken.
ghost use Rattle.std.specs.Prelude.{◌≡◌, ℕ, List, ◌∷◌};
ghost use Rattle.syntax_trees.specs.Lexed.{long_signs, short_signs, sign_of};
ghost use Rattle.syntax_trees.specs.Signs.{sign_among};

use crate::token::Token;
use crate::{EnvOp, RelOp};

// The sign of two bytes that these are.
pub(crate) fn long_sign(first: u8, second: u8) -> Option<Token>
    ensures { (rest : List ℕ)
        → sign_of result rest ≡ sign_among long_signs (first ∷ second ∷ rest) }
{
    match (first, second) {
        (b'!', b'=') => Some(Token::Relation(RelOp::Ne)),
        (b'<', b'=') => Some(Token::Relation(RelOp::Le)),
        (b'>', b'=') => Some(Token::Relation(RelOp::Ge)),
        (b'+', b'=') => Some(Token::Update(EnvOp::Before)),
        (b'=', b'+') => Some(Token::Update(EnvOp::After)),
        (b':', b'=') => Some(Token::Update(EnvOp::BeforeKeep)),
        (b'=', b':') => Some(Token::Update(EnvOp::AfterKeep)),
        _ => None,
    }
}

// The sign that this byte is.
pub(crate) fn short_sign(byte: u8) -> Option<Token>
    ensures { (rest : List ℕ) → sign_of result rest ≡ sign_among short_signs (byte ∷ rest) }
{
    match byte {
        b'=' => Some(Token::Relation(RelOp::Eq)),
        b'<' => Some(Token::Relation(RelOp::Lt)),
        b'>' => Some(Token::Relation(RelOp::Gt)),
        b':' => Some(Token::Colon),
        b'[' => Some(Token::OpenList),
        b']' => Some(Token::CloseList),
        b'{' => Some(Token::OpenBraces),
        b'}' => Some(Token::CloseBraces),
        b'(' => Some(Token::OpenGroup),
        b')' => Some(Token::CloseGroup),
        b'&' => Some(Token::And),
        b'|' => Some(Token::Or),
        b'!' => Some(Token::Not),
        b'?' => Some(Token::Defined),
        _ => None,
    }
}

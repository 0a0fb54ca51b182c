// The tokens of an opam file.
use crate::{EnvOp, RelOp, Span, Word};
use sqlite_items::Items;

/// A word, a text or a sign.
#[derive(Drop)]
pub enum Token {
    Flag(bool),
    Int(i64),
    Text(Items<u8>),
    /// A plain identifier.
    Plain(Word),
    /// An identifier with its scope.
    Scoped(Word, Word),
    Colon,
    OpenList,
    CloseList,
    OpenBraces,
    CloseBraces,
    OpenGroup,
    CloseGroup,
    Relation(RelOp),
    Update(EnvOp),
    And,
    Or,
    Not,
    Defined,
}

/// A token and where it stands.
#[derive(Drop)]
pub struct PlacedToken {
    pub token: Token,
    pub span: Span,
}

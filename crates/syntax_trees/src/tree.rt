// Values, as they stand in fields.
use crate::Word;
use sqlite_items::{Boxed, Items};

/// From the first byte of a spelling to past its last.
#[derive(Clone, Copy, Debug, PartialEq, Eq)]
pub struct Span {
    pub start: u32,
    pub end: u32,
}

/// The sign of a relation.
#[derive(Clone, Copy, Debug, PartialEq, Eq)]
pub enum RelOp {
    Eq,
    Ne,
    Lt,
    Le,
    Gt,
    Ge,
}

/// The sign of an update of the environment: `=`, `+=`, `=+`, `:=`, `=:`. In a tree `=` is a relation.
#[derive(Clone, Copy, Debug, PartialEq, Eq)]
pub enum EnvOp {
    Set,
    Before,
    After,
    BeforeKeep,
    AfterKeep,
}

/// A variable: its name, and the packages whose variable it is, as they are written before the colon.
#[derive(Drop, PartialEq, Eq, PartialOrd, Ord)]
pub struct Var {
    pub scope: Option<Word>,
    pub name: Word,
}

/// A value with the place where it stands.
#[cycle(tree)]
#[derive(Drop)]
pub struct Node {
    pub value: Value,
    pub span: Span,
}

/// What a value is.
#[cycle(tree)]
#[derive(Drop)]
pub enum Value {
    Flag(bool),
    Int(i64),
    /// The bytes between the quotes, each escape replaced by what it stands for.
    Text(Items<u8>),
    Ident(Var),
    /// `[ .. ]`
    List(Items<Node>),
    /// `( .. )`
    Group(Items<Node>),
    /// A value and what stands in braces after it.
    Braced(Boxed<Node>, Items<Node>),
    /// `! ..`
    Not(Boxed<Node>),
    /// `? ..`
    Defined(Boxed<Node>),
    Rel(RelOp, Boxed<Node>, Boxed<Node>),
    /// A relation without a left side.
    PreRel(RelOp, Boxed<Node>),
    /// Two or more, joined by `&`.
    And(Items<Node>),
    /// Two or more, joined by `|`.
    Or(Items<Node>),
    Env(EnvOp, Boxed<Node>, Boxed<Node>),
}

// Items of a file as they are read, before they are put into maps.
use crate::{Key, Node, Span, Word};
use opam_names::Items;

/// A field of a section, and where its name begins.
#[derive(Drop)]
pub struct ReadField {
    pub name: Word,
    pub value: Node,
    pub place: u32,
}

/// What is in an item: the value of a field, or the fields of a section in their order, doubled names and all.
#[derive(Drop)]
pub enum ReadContents {
    Field(Node),
    Section(Items<ReadField>),
}

/// An item with its span.
#[derive(Drop)]
pub struct ReadEntry {
    pub key: Key,
    pub contents: ReadContents,
    pub span: Span,
}

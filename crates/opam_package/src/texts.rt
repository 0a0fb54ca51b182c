// Texts of nodes that have no fault.
ghost use Rattle.std.specs.Prelude.{[], ◌≡◌, IfOk, map};
ghost use Rattle.std.specs.List.{flat_map};
ghost use Rattle.opam_package.specs.Forms.{text_faults, text_of, texts_faults, texts_of};

use crate::forms::text_of_bytes;
use crate::views::{text_in, values_of};
use opam_names::{Items, OutOfMemory, Text};
use std::alloc::Global;
use syntax_trees::Node;

/// The text that a node is.
pub(crate) fn build_text(alloc: Global, node: &Node) -> Result<Text, OutOfMemory>
    requires { text_faults node.now ≡ [] }
    ensures { IfOk result (λ text. text ≡ text_of node.now) }
{
    match text_in(node) {
        None => unreachable!(),
        Some(bytes) => match text_of_bytes(bytes) {
            None => unreachable!(),
            Some(text) => Text::from_str(alloc, text),
        },
    }
}

/// The texts of a list, or the one text.
pub(crate) fn build_texts(alloc: Global, node: &Node) -> Result<Items<Text>, OutOfMemory>
    requires { texts_faults node.now ≡ [] }
    ensures { IfOk result (λ texts. texts ≡ texts_of node.now) }
{
    let values = values_of(node);
    let mut texts = Items::new(alloc);
    for value in values {
        texts.push(build_text(alloc, value)?)?;
    }
    Ok(texts)
}

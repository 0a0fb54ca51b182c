// How the items of a file are found.
ghost use Rattle.std.specs.Option.{option_copied};
ghost use Rattle.std.specs.Prelude.{◌≡◌};
ghost use Rattle.syntax_trees.specs.Trees.{items_of};
ghost use Rattle.opam_package.specs.Fields as fields;

use indexmap::IndexMap;
use syntax_trees::{File, Item, Node, Word};

/// The value of the field of this name at the top of a file.
pub fn field_of<'a>(file: &'a File, name: &str) -> Option<&'a Node>
    ensures { option_copied result ≡ fields.field_of name.now (items_of file.now) }
{
    for (key, item) in &file.items {
        if let Item::Field(value) = item {
            if key.name.as_str() == name {
                return Some(value);
            }
        }
    }
    None
}

/// The same of the fields of a section.
pub(crate) fn inner_field<'a>(section: &'a IndexMap<Word, Node>, name: &str) -> Option<&'a Node>
    ensures { option_copied result ≡ fields.inner_field name.now section.now.entries }
{
    for (word, value) in section {
        if word.as_str() == name {
            return Some(value);
        }
    }
    None
}

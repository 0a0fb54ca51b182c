// What is found in a file: the value of a field, and the bytes of a span.
ghost use Rattle.std.specs.Prelude.{◌≡◌, ◌≤◌, length, slice_range};
ghost use Rattle.std.specs.Option.{option_copied};
ghost use Rattle.syntax_trees.specs.Doubles.{key_eq};
ghost use Rattle.syntax_trees.specs.Lookup.{field_key, field_value, value_in};

use crate::{File, Item, Key, Node, Span};

/// The bytes where something stands.
pub fn text_of<'a>(bytes: &'a [u8], span: Span) -> &'a [u8]
    requires order { span.start ≤ span.end }
    requires within { span.end ≤ length bytes.now }
    ensures { result.now ≡ slice_range bytes.now span.start span.end }
{
    &bytes[span.start as usize..span.end as usize]
}

impl File {
    /// The value of the field of this name that stands in no section.
    pub fn field(&self, name: &str) -> Option<&Node>
        ensures { option_copied result ≡ field_value self.now.items.entries name.now }
    {
        for (key, item) in &self.items {
            if is_field(key, name) {
                return value_of(item);
            }
        }
        None
    }
}

fn is_field(key: &Key, name: &str) -> bool
    ensures { result ≡ key_eq (field_key name.now) key.now }
{
    key.name.as_str() == name && !key.section && key.label.is_none()
}

fn value_of(item: &Item) -> Option<&Node>
    ensures { option_copied result ≡ value_in item.now }
{
    match item {
        Item::Field(value) => Some(value),
        Item::Section(_) => None,
    }
}

// The canonical spelling of a file: a line for each field, one space between values, short texts. This project's own.
ghost use Rattle.std.specs.Prelude.{◌≡◌, ◌++◌, [], codes, map, IfOk, OnOk};
ghost use Rattle.syntax_trees.specs.Signs.{relation_text, update_text};
ghost use Rattle.opam_syntax.specs.Spelling.{byte_text, quoted, flag_text, variable_text, joined_by, value_text, field_text, fields_text, label_text, item_text, file_text};
ghost use Rattle.syntax_trees.specs.Trees.{contents_of};

use indexmap::IndexMap;
use itoa::Buffer;
use opam_names::OutOfMemory;
use std::alloc::Global;
use syntax_trees::{EnvOp, File, Item, Key, Label, Node, RelOp, Value, Var, Word};

/// The canonical spelling of a file. It has all of its items in their order, and none of its places.
pub fn print_file(alloc: Global, file: &File) -> Result<Vec<u8>, OutOfMemory>
    ensures { IfOk result (λ bytes. bytes.items ≡ file_text file.now) }
{
    let mut out = Vec::new(alloc);
    for (key, item) in &file.items {
        print_item(&mut out, key, item)?;
    }
    Ok(out)
}

fn print_item(out: &mut Vec<u8>, key: &Key, item: &Item) -> Result<(), OutOfMemory>
    ensures { OnOk result (out.new.items
        ≡ out.old.items ++ item_text key.now (contents_of item.now)) }
{
    match item {
        Item::Field(value) => print_field(out, &key.name, value),
        Item::Section(fields) => {
            print(out, key.name.as_str())?;
            print(out, " ")?;
            print_label(out, &key.label)?;
            print(out, "{\n")?;
            print_fields(out, fields)?;
            print(out, "}\n")
        }
    }
}

// With the space that stands after it.
fn print_label(out: &mut Vec<u8>, label: &Option<Label>) -> Result<(), OutOfMemory>
    ensures { OnOk result (out.new.items ≡ out.old.items ++ label_text label.now) }
{
    match label {
        None => Ok(()),
        Some(label) => {
            print_text(out, label.as_slice())?;
            print(out, " ")
        }
    }
}

fn print_fields(out: &mut Vec<u8>, fields: &IndexMap<Word, Node>) -> Result<(), OutOfMemory>
    ensures { OnOk result (out.new.items ≡ out.old.items ++ fields_text fields.now.entries) }
{
    for (name, value) in fields {
        print(out, "  ")?;
        print_field(out, name, value)?;
    }
    Ok(())
}

fn print_field(out: &mut Vec<u8>, name: &Word, value: &Node) -> Result<(), OutOfMemory>
    ensures { OnOk result (out.new.items ≡ out.old.items ++ field_text name.now value.now) }
{
    print(out, name.as_str())?;
    print(out, ": ")?;
    print_value(out, value)?;
    print(out, "\n")
}

#[cycle(print)]
fn print_value(out: &mut Vec<u8>, node: &Node) -> Result<(), OutOfMemory>
    ensures { OnOk result (out.new.items ≡ out.old.items ++ value_text node.now) }
{
    match &node.value {
        Value::Flag(flag) => print(out, flag_word(*flag)),
        Value::Int(number) => print(out, Buffer::new().format(*number)),
        Value::Text(bytes) => print_text(out, bytes.as_slice()),
        Value::Ident(variable) => print_variable(out, variable),
        Value::List(nodes) => print_enclosed(out, "[", nodes.as_slice(), "]"),
        Value::Group(nodes) => print_enclosed(out, "(", nodes.as_slice(), ")"),
        Value::Braced(before, nodes) => {
            print_value(out, before.get())?;
            print_enclosed(out, " {", nodes.as_slice(), "}")
        }
        Value::Not(part) => {
            print(out, "! ")?;
            print_value(out, part.get())
        }
        Value::Defined(part) => {
            print(out, "? ")?;
            print_value(out, part.get())
        }
        Value::Rel(op, left, right) => {
            print_value(out, left.get())?;
            print(out, " ")?;
            print_signed(out, relation_sign(*op), right.get())
        }
        Value::PreRel(op, right) => print_signed(out, relation_sign(*op), right.get()),
        Value::And(parts) => print_joined(out, parts.as_slice(), " & "),
        Value::Or(parts) => print_joined(out, parts.as_slice(), " | "),
        Value::Env(op, left, right) => {
            print_value(out, left.get())?;
            print(out, " ")?;
            print_signed(out, update_sign(*op), right.get())
        }
    }
}

// A sign and what stands on its right.
#[cycle(print)]
fn print_signed(out: &mut Vec<u8>, sign: &str, right: &Node) -> Result<(), OutOfMemory>
    ensures { OnOk result (out.new.items
        ≡ out.old.items ++ (sign.now ++ codes " " ++ value_text right.now)) }
{
    print(out, sign)?;
    print(out, " ")?;
    print_value(out, right)
}

#[cycle(print)]
fn print_enclosed(
    out: &mut Vec<u8>,
    opening: &str,
    nodes: &[Node],
    closing: &str,
) -> Result<(), OutOfMemory>
    ensures { OnOk result (out.new.items ≡ out.old.items
        ++ (opening.now ++ joined_by (codes " ") (map value_text nodes.now) ++ closing.now)) }
{
    print(out, opening)?;
    print_joined(out, nodes, " ")?;
    print(out, closing)
}

#[cycle(print)]
fn print_joined(out: &mut Vec<u8>, nodes: &[Node], between: &str) -> Result<(), OutOfMemory>
    ensures { OnOk result (out.new.items
        ≡ out.old.items ++ joined_by between.now (map value_text nodes.now)) }
{
    let [first, more @ ..] = nodes else {
        return Ok(());
    };
    print_value(out, first)?;
    for node in more {
        print(out, between)?;
        print_value(out, node)?;
    }
    Ok(())
}

fn print_variable(out: &mut Vec<u8>, variable: &Var) -> Result<(), OutOfMemory>
    ensures { OnOk result (out.new.items ≡ out.old.items ++ variable_text variable.now) }
{
    if let Some(scope) = &variable.scope {
        print(out, scope.as_str())?;
        print(out, ":")?;
    }
    print(out, variable.name.as_str())
}

// A short text, with its quotes.
fn print_text(out: &mut Vec<u8>, bytes: &[u8]) -> Result<(), OutOfMemory>
    ensures { OnOk result (out.new.items ≡ out.old.items ++ quoted bytes.now) }
{
    print(out, "\"")?;
    for byte in bytes {
        print_byte(out, *byte)?;
    }
    print(out, "\"")
}

// A byte as it stands in a text.
fn print_byte(out: &mut Vec<u8>, byte: u8) -> Result<(), OutOfMemory>
    ensures { OnOk result (out.new.items ≡ out.old.items ++ byte_text byte) }
{
    match byte {
        b'\\' | b'"' => out.extend_from_slice(&[b'\\', byte])?,
        b'\n' => out.extend_from_slice(b"\\n")?,
        b'\t' => out.extend_from_slice(b"\\t")?,
        b'\r' => out.extend_from_slice(b"\\r")?,
        0..=31 | 127 => {
            let digits = [b'0' + byte / 100, b'0' + byte / 10 % 10, b'0' + byte % 10];
            out.push(b'\\')?;
            out.extend_from_slice(&digits)?;
        }
        _ => out.push(byte)?,
    }
    Ok(())
}

fn print(out: &mut Vec<u8>, text: &str) -> Result<(), OutOfMemory>
    ensures { OnOk result (out.new.items ≡ out.old.items ++ text.now) }
{
    out.extend_from_slice(text.as_bytes())?;
    Ok(())
}

fn flag_word(flag: bool) -> &'static str
    ensures { result.now ≡ flag_text flag }
{
    if flag { "true" } else { "false" }
}

fn relation_sign(op: RelOp) -> &'static str
    ensures { result.now ≡ relation_text op }
{
    match op {
        RelOp::Eq => "=",
        RelOp::Ne => "!=",
        RelOp::Lt => "<",
        RelOp::Le => "<=",
        RelOp::Gt => ">",
        RelOp::Ge => ">=",
    }
}

fn update_sign(op: EnvOp) -> &'static str
    ensures { result.now ≡ update_text op }
{
    match op {
        EnvOp::Set => "=",
        EnvOp::Before => "+=",
        EnvOp::After => "=+",
        EnvOp::BeforeKeep => ":=",
        EnvOp::AfterKeep => "=:",
    }
}

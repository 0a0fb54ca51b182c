// Calls of `read_file`, of a file's `field`, and of `text_of`. A file is shown by its items, each with its place, and a value as `print_file` takes it: after its
// parts, and with the place where it stands, as `x @3-4`. A fault is told with its place, as `Stray 3`. `respelled` reads a text and prints its file.
use indexmap::IndexMap;
use opam_syntax::{print_file, read_file};
use row_script::fault::Fault;
use row_script::lexer::Word;
use row_script::script::Call;
use row_script::show::{plain, push_quoted, quoted};
use std::alloc::Global;
use syntax_trees::{
    EnvOp, FILE_LIMIT, File, Item, Key, Node, RelOp, Span, SyntaxFault, Value, Var, text_of,
};

pub fn answer(alloc: Global, call: &Call) -> Result<String, Fault> {
    let words = call.words.as_slice();
    match call.name.as_str() {
        "read_file" => read(alloc, words),
        "respelled" => respelled(alloc, words),
        "field" => field(alloc, words),
        "text_of" => show_text(alloc, words),
        _ => Err(Fault::Unknown),
    }
}

fn read(alloc: Global, words: &[Word]) -> Result<String, Fault> {
    let [text] = words else {
        return Err(Fault::Unknown);
    };
    let bytes = text.bytes.as_slice();
    if bytes.len() > FILE_LIMIT {
        return Err(Fault::Line("the text is too long"));
    }
    match read_file(alloc, bytes) {
        Ok(file) => show_file(alloc, &file),
        Err(fault) => show_fault(alloc, fault),
    }
}

// The canonical spelling of the file of a text.
fn respelled(alloc: Global, words: &[Word]) -> Result<String, Fault> {
    let [text] = words else {
        return Err(Fault::Unknown);
    };
    let bytes = text.bytes.as_slice();
    if bytes.len() > FILE_LIMIT {
        return Err(Fault::Line("the text is too long"));
    }
    match read_file(alloc, bytes) {
        Ok(file) => quoted(alloc, print_file(alloc, &file)?.as_slice()),
        Err(fault) => show_fault(alloc, fault),
    }
}

fn show_fault(alloc: Global, fault: SyntaxFault) -> Result<String, Fault> {
    match fault {
        SyntaxFault::Ended { at } => Ok(format!(in alloc; "Ended {at}")?),
        SyntaxFault::Stray { at } => Ok(format!(in alloc; "Stray {at}")?),
        SyntaxFault::Deep { at } => Ok(format!(in alloc; "Deep {at}")?),
        SyntaxFault::Doubled { at } => Ok(format!(in alloc; "Doubled {at}")?),
        SyntaxFault::Memory => Err(Fault::Memory),
    }
}

// The value of a field of a file.
fn field(alloc: Global, words: &[Word]) -> Result<String, Fault> {
    let [text, name] = words else {
        return Err(Fault::Unknown);
    };
    let name = name.text()?;
    let bytes = text.bytes.as_slice();
    if bytes.len() > FILE_LIMIT {
        return Err(Fault::Line("the text is too long"));
    }
    match read_file(alloc, bytes) {
        Ok(file) => show_field(alloc, &file, name),
        Err(fault) => show_fault(alloc, fault),
    }
}

fn show_field(alloc: Global, file: &File, name: &str) -> Result<String, Fault> {
    match file.field(name) {
        Some(value) => show_node(alloc, value),
        None => plain(alloc, "none"),
    }
}

fn show_node(alloc: Global, node: &Node) -> Result<String, Fault> {
    let mut text = String::new(alloc);
    push_node(&mut text, node)?;
    Ok(text)
}

fn show_text(alloc: Global, words: &[Word]) -> Result<String, Fault> {
    let [text, start, end] = words else {
        return Err(Fault::Unknown);
    };
    text_between(alloc, text.bytes.as_slice(), start.number()?, end.number()?)
}

fn text_between(alloc: Global, bytes: &[u8], start: u64, end: u64) -> Result<String, Fault> {
    if start > end || end > bytes.len() as u64 || end > u64::from(u32::MAX) {
        return Err(Fault::Line("the span is not within the text"));
    }
    let span = Span {
        start: start as u32,
        end: end as u32,
    };
    quoted(alloc, text_of(bytes, span))
}

fn show_file(alloc: Global, file: &File) -> Result<String, Fault> {
    let mut text = String::new(alloc);
    for ((key, item), span) in file.items.iter().zip(file.places.as_slice()) {
        let between = if text.is_empty() { "" } else { "; " };
        push(&mut text, between)?;
        push_item(&mut text, key, item, *span)?;
    }
    if text.is_empty() {
        push(&mut text, "no items")?;
    }
    Ok(text)
}

fn push_item(text: &mut String, key: &Key, item: &Item, span: Span) -> Result<(), Fault> {
    push(text, key.name.as_str())?;
    if let Some(label) = &key.label {
        push(text, " ")?;
        push_quoted(text, label.as_slice())?;
    }
    push_span(text, span)?;
    match item {
        Item::Field(value) => {
            push(text, ": ")?;
            push_node(text, value)
        }
        Item::Section(fields) => push_fields(text, fields),
    }
}

fn push_fields(
    text: &mut String,
    fields: &IndexMap<syntax_trees::Word, Node>,
) -> Result<(), Fault> {
    push(text, " {")?;
    for (name, value) in fields {
        push(text, " ")?;
        push(text, name.as_str())?;
        push(text, ": ")?;
        push_node(text, value)?;
    }
    push(text, " }")
}

#[cycle(show)]
fn push_node(text: &mut String, node: &Node) -> Result<(), Fault> {
    push_value(text, &node.value)?;
    push_span(text, node.span)
}

#[cycle(show)]
fn push_value(text: &mut String, value: &Value) -> Result<(), Fault> {
    match value {
        Value::Flag(flag) => push(text, if *flag { "true" } else { "false" }),
        Value::Int(number) => Ok(write!(text, "{number}")?),
        Value::Text(bytes) => push_quoted(text, bytes.as_slice()),
        Value::Ident(variable) => push_variable(text, variable),
        Value::List(nodes) => push_counted(text, nodes.as_slice(), "[", "]"),
        Value::Group(nodes) => push_counted(text, nodes.as_slice(), "(", ")"),
        Value::And(nodes) => push_counted(text, nodes.as_slice(), "&", ""),
        Value::Or(nodes) => push_counted(text, nodes.as_slice(), "|", ""),
        Value::Braced(before, nodes) => {
            push_part(text, before.get())?;
            push_counted(text, nodes.as_slice(), "{", "}")
        }
        Value::Not(part) => push_signed(text, part.get(), "!"),
        Value::Defined(part) => push_signed(text, part.get(), "?"),
        Value::PreRel(op, right) => {
            push_signed(text, right.get(), "_")?;
            push(text, relation_sign(*op))
        }
        Value::Rel(op, left, right) => {
            push_part(text, left.get())?;
            push_signed(text, right.get(), relation_sign(*op))
        }
        Value::Env(op, left, right) => {
            push_part(text, left.get())?;
            push_signed(text, right.get(), update_sign(*op))
        }
    }
}

#[cycle(show)]
fn push_part(text: &mut String, node: &Node) -> Result<(), Fault> {
    push_node(text, node)?;
    push(text, " ")
}

#[cycle(show)]
fn push_signed(text: &mut String, node: &Node, sign: &str) -> Result<(), Fault> {
    push_part(text, node)?;
    push(text, sign)
}

#[cycle(show)]
fn push_counted(
    text: &mut String,
    nodes: &[Node],
    opening: &str,
    closing: &str,
) -> Result<(), Fault> {
    for node in nodes {
        push_part(text, node)?;
    }
    let count = nodes.len();
    Ok(write!(text, "{opening}{count}{closing}")?)
}

fn push_variable(text: &mut String, variable: &Var) -> Result<(), Fault> {
    if let Some(scope) = &variable.scope {
        push(text, scope.as_str())?;
        push(text, ":")?;
    }
    push(text, variable.name.as_str())
}

fn push_span(text: &mut String, span: Span) -> Result<(), Fault> {
    Ok(write!(text, " @{}-{}", span.start, span.end)?)
}

fn push(text: &mut String, part: &str) -> Result<(), Fault> {
    Ok(text.push_str(part)?)
}

fn relation_sign(op: RelOp) -> &'static str {
    match op {
        RelOp::Eq => "=",
        RelOp::Ne => "!=",
        RelOp::Lt => "<",
        RelOp::Le => "<=",
        RelOp::Gt => ">",
        RelOp::Ge => ">=",
    }
}

fn update_sign(op: EnvOp) -> &'static str {
    match op {
        EnvOp::Set => "=set",
        EnvOp::Before => "+=",
        EnvOp::After => "=+",
        EnvOp::BeforeKeep => ":=",
        EnvOp::AfterKeep => "=:",
    }
}

// Values of files, written as a script has them: each value after its parts. `"t"` is a text, `5` an integer, `true` a
// boolean, `a` or `a:b` a word. A sign takes the values before it: `=` and the other relations two, `_=` and its kin one,
// `!` and `?` one, `&2` and `|2` as many as they say, `[2]` and `(2)` too, and `{2}` two and the value that they stand
// after. `@3-7` says where the value before it stands. This project's own.
use row_script::fault::Fault;
use row_script::lexer::Word;
use sqlite_items::{Boxed, Items};
use std::alloc::Global;
use syntax_trees::{EnvOp, Node, RelOp, Span, Value, Var};

/// The value that the words write.
pub fn read_tree(alloc: Global, words: &[Word]) -> Result<Node, Fault> {
    let mut stack = Vec::new(alloc);
    for word in words {
        take(alloc, &mut stack, word)?;
    }
    match stack.pop() {
        Some(node) if stack.is_empty() => Ok(node),
        _ => Err(Fault::Line("the words are not one value")),
    }
}

fn take(alloc: Global, stack: &mut Vec<Node>, word: &Word) -> Result<(), Fault> {
    let node = if word.quoted {
        placed(Value::Text(Items::from_slice(alloc, word.bytes.as_slice())?))
    } else {
        bare(alloc, stack, word.text()?)?
    };
    Ok(stack.push(node)?)
}

// A value that stands nowhere.
fn placed(value: Value) -> Node {
    Node {
        value,
        span: Span { start: 0, end: 0 },
    }
}

fn bare(alloc: Global, stack: &mut Vec<Node>, text: &str) -> Result<Node, Fault> {
    if let Some(place) = text.strip_prefix('@') {
        return put_at(stack, place);
    }
    Ok(placed(value_of(alloc, stack, sign_of(text))?))
}

// What a bare word says of the values before it.
#[derive(Clone, Copy)]
enum Sign<'a> {
    Relation(RelOp),
    Update(EnvOp),
    /// A relation with nothing on its left.
    Prefixed(RelOp),
    Not,
    Defined,
    // The number of the parts.
    And(&'a str),
    Or(&'a str),
    List(&'a str),
    Group(&'a str),
    Braced(&'a str),
    /// A value of its own.
    Leaf(&'a str),
}

fn sign_of(text: &str) -> Sign<'_> {
    if let Some(op) = relation(text) {
        return Sign::Relation(op);
    }
    if let Some(op) = update(text) {
        return Sign::Update(op);
    }
    if let Some(op) = text.strip_prefix('_').and_then(|sign| relation(sign)) {
        return Sign::Prefixed(op);
    }
    match text {
        "!" => Sign::Not,
        "?" => Sign::Defined,
        _ => joint_of(text),
    }
}

fn joint_of(text: &str) -> Sign<'_> {
    if let Some(count) = text.strip_prefix('&') {
        return Sign::And(count);
    }
    if let Some(count) = text.strip_prefix('|') {
        return Sign::Or(count);
    }
    if let Some(count) = inside(text, '[', ']') {
        return Sign::List(count);
    }
    if let Some(count) = inside(text, '(', ')') {
        return Sign::Group(count);
    }
    if let Some(count) = inside(text, '{', '}') {
        return Sign::Braced(count);
    }
    Sign::Leaf(text)
}

fn value_of(alloc: Global, stack: &mut Vec<Node>, sign: Sign<'_>) -> Result<Value, Fault> {
    match sign {
        Sign::Relation(op) => related(alloc, stack, op),
        Sign::Update(op) => updated(alloc, stack, op),
        Sign::Prefixed(op) => Ok(Value::PreRel(op, pop_boxed(alloc, stack)?)),
        Sign::Not => Ok(Value::Not(pop_boxed(alloc, stack)?)),
        Sign::Defined => Ok(Value::Defined(pop_boxed(alloc, stack)?)),
        Sign::And(count) => Ok(Value::And(counted(alloc, stack, count)?)),
        Sign::Or(count) => Ok(Value::Or(counted(alloc, stack, count)?)),
        Sign::List(count) => Ok(Value::List(counted(alloc, stack, count)?)),
        Sign::Group(count) => Ok(Value::Group(counted(alloc, stack, count)?)),
        Sign::Braced(count) => braced(alloc, stack, count),
        Sign::Leaf(text) => leaf(alloc, text),
    }
}

fn pop(stack: &mut Vec<Node>) -> Result<Node, Fault> {
    match stack.pop() {
        Some(node) => Ok(node),
        None => Err(Fault::Line("a value has too few parts")),
    }
}

fn pop_boxed(alloc: Global, stack: &mut Vec<Node>) -> Result<Boxed<Node>, Fault> {
    Ok(Boxed::new(alloc, pop(stack)?)?)
}

// The last values, in their order.
fn pop_all(alloc: Global, stack: &mut Vec<Node>, count: usize) -> Result<Items<Node>, Fault> {
    let mut nodes = Vec::new(alloc);
    for _ in 0..count {
        nodes.push(pop(stack)?)?;
    }
    nodes.reverse();
    Ok(Items::from_vec(nodes))
}

fn number(text: &str) -> Result<u32, Fault> {
    match text.parse::<u32>() {
        Ok(number) => Ok(number),
        Err(_) => Err(Fault::Line("a number is missing in a value")),
    }
}

fn put_at(stack: &mut Vec<Node>, place: &str) -> Result<Node, Fault> {
    let Some((start, end)) = place.split_once('-') else {
        return Err(Fault::Line("a place has no end"));
    };
    let node = pop(stack)?;
    Ok(Node {
        value: node.value,
        span: Span {
            start: number(start)?,
            end: number(end)?,
        },
    })
}

fn relation(sign: &str) -> Option<RelOp> {
    match sign {
        "=" => Some(RelOp::Eq),
        "!=" => Some(RelOp::Ne),
        "<" => Some(RelOp::Lt),
        "<=" => Some(RelOp::Le),
        ">" => Some(RelOp::Gt),
        ">=" => Some(RelOp::Ge),
        _ => None,
    }
}

fn update(sign: &str) -> Option<EnvOp> {
    match sign {
        "=set" => Some(EnvOp::Set),
        "+=" => Some(EnvOp::Before),
        "=+" => Some(EnvOp::After),
        ":=" => Some(EnvOp::BeforeKeep),
        "=:" => Some(EnvOp::AfterKeep),
        _ => None,
    }
}

fn related(alloc: Global, stack: &mut Vec<Node>, op: RelOp) -> Result<Value, Fault> {
    let right = pop_boxed(alloc, stack)?;
    Ok(Value::Rel(op, pop_boxed(alloc, stack)?, right))
}

fn updated(alloc: Global, stack: &mut Vec<Node>, op: EnvOp) -> Result<Value, Fault> {
    let right = pop_boxed(alloc, stack)?;
    Ok(Value::Env(op, pop_boxed(alloc, stack)?, right))
}

fn braced(alloc: Global, stack: &mut Vec<Node>, count: &str) -> Result<Value, Fault> {
    let inner = counted(alloc, stack, count)?;
    Ok(Value::Braced(pop_boxed(alloc, stack)?, inner))
}

// What stands between two signs.
fn inside<'a>(text: &'a str, open: char, close: char) -> Option<&'a str> {
    text.strip_prefix(open)?.strip_suffix(close)
}

fn counted(alloc: Global, stack: &mut Vec<Node>, count: &str) -> Result<Items<Node>, Fault> {
    pop_all(alloc, stack, number(count)? as usize)
}

fn leaf(alloc: Global, text: &str) -> Result<Value, Fault> {
    match text {
        "true" => return Ok(Value::Flag(true)),
        "false" => return Ok(Value::Flag(false)),
        _ => {}
    }
    match text.parse::<i64>() {
        Ok(number) => Ok(Value::Int(number)),
        Err(_) => Ok(Value::Ident(variable(alloc, text)?)),
    }
}

/// `name`, or `scope:name`.
pub fn variable(alloc: Global, text: &str) -> Result<Var, Fault> {
    match text.split_once(':') {
        Some((scope, name)) => Ok(Var {
            scope: Some(syntax_word(alloc, scope)?),
            name: syntax_word(alloc, name)?,
        }),
        None => Ok(Var {
            scope: None,
            name: syntax_word(alloc, text)?,
        }),
    }
}

/// A word of a file.
pub fn syntax_word(alloc: Global, text: &str) -> Result<syntax_trees::Word, Fault> {
    Ok(syntax_trees::Word::from_string(String::from_str(alloc, text)?))
}

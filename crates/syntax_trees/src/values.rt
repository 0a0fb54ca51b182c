// Values are parsed by descent: a function for each level of the grammar, which takes what the level goes on with.
ghost use Rattle.std.specs.Prelude.{◌≡◌, ◌<◌, [], ◌∷◌, length, OnOk};
ghost use Rattle.syntax_trees.specs.Grammar.{ValueLevel, OrLevel, AndLevel, UnaryLevel, RelationLevel, BracedLevel, PrimaryLevel, node};
ghost use Rattle.syntax_trees.specs.Parsing.{Encloses, IsBeginning, JoinsAll, JoinsAny, Makes, Parses, prefix_node, ReadsLoneAtom};
ghost use Rattle.syntax_trees.specs.declared.tree.Value.TheOpen.{Value-F};

use crate::fault::ParseFault;
use crate::queue::{Bracket, Prefix, Sign, TokenQueue};
use crate::token::{PlacedToken, Token};
use crate::{EnvOp, Node, RelOp, Span, Value, Var};
use sqlite_items::{Boxed, Items};
use std::alloc::Global;

/// How a primary begins, by its first token.
#[derive(Drop)]
enum Beginning {
    Atom(Value),
    OpenList,
    OpenGroup,
    Stray,
}

/// The values in a bracket, and where the sign stands that closes it.
#[derive(Drop)]
struct Enclosed {
    nodes: Items<Node>,
    to: Span,
}

/// A value. One that is an atom alone, as most are, does not go through the levels.
#[cycle(parse)]
pub(crate) fn value(
    alloc: Global,
    tokens: &mut TokenQueue,
    allowed: u32,
) -> Result<Node, ParseFault>
    ensures parsed { Parses ValueLevel allowed tokens.old result tokens.new }
    ensures shorter { OnOk result (length tokens.new < length tokens.old) }
{
    match lone_atom(tokens) {
        Some(node) => Ok(node),
        None => whole_value(alloc, tokens, allowed),
    }
}

/// value = or [ update or ]
#[cycle(parse)]
fn whole_value(alloc: Global, tokens: &mut TokenQueue, allowed: u32) -> Result<Node, ParseFault>
    ensures parsed { Parses ValueLevel allowed tokens.old result tokens.new }
    ensures shorter { OnOk result (length tokens.new < length tokens.old) }
{
    let left = disjuncts(alloc, tokens, allowed)?;
    match tokens.take_update() {
        None => Ok(left),
        Some((op, _)) => {
            let right = disjuncts(alloc, tokens, allowed)?;
            match tokens.take_update() {
                None => update(alloc, op, left, right),
                Some(_) => Err(ParseFault::Stray(tokens.len())),
            }
        }
    }
}

/// or = and { "|" and }
#[cycle(parse)]
fn disjuncts(alloc: Global, tokens: &mut TokenQueue, allowed: u32) -> Result<Node, ParseFault>
    ensures parsed { Parses OrLevel allowed tokens.old result tokens.new }
    ensures shorter { OnOk result (length tokens.new < length tokens.old) }
{
    let first = conjuncts(alloc, tokens, allowed)?;
    match tokens.take_sign(Sign::Or) {
        None => Ok(first),
        Some(_) => more_disjuncts(alloc, tokens, allowed, first),
    }
}

#[cycle(parse)]
fn more_disjuncts(
    alloc: Global,
    tokens: &mut TokenQueue,
    allowed: u32,
    first: Node,
) -> Result<Node, ParseFault>
    ensures joined { JoinsAny first allowed tokens.old result tokens.new }
    ensures shorter { OnOk result (length tokens.new < length tokens.old) }
{
    let start = first.span;
    let mut parts = Items::new(alloc);
    parts.push(first)?;
    loop {
        let part = conjuncts(alloc, tokens, allowed)?;
        let end = part.span;
        parts.push(part)?;
        match tokens.take_sign(Sign::Or) {
            None => return Ok(any_node(parts, start, end)),
            Some(_) => {}
        }
    }
}

/// and = unary { "&" unary }
#[cycle(parse)]
fn conjuncts(alloc: Global, tokens: &mut TokenQueue, allowed: u32) -> Result<Node, ParseFault>
    ensures parsed { Parses AndLevel allowed tokens.old result tokens.new }
    ensures shorter { OnOk result (length tokens.new < length tokens.old) }
{
    let first = unary(alloc, tokens, allowed)?;
    match tokens.take_sign(Sign::And) {
        None => Ok(first),
        Some(_) => more_conjuncts(alloc, tokens, allowed, first),
    }
}

#[cycle(parse)]
fn more_conjuncts(
    alloc: Global,
    tokens: &mut TokenQueue,
    allowed: u32,
    first: Node,
) -> Result<Node, ParseFault>
    ensures joined { JoinsAll first allowed tokens.old result tokens.new }
    ensures shorter { OnOk result (length tokens.new < length tokens.old) }
{
    let start = first.span;
    let mut parts = Items::new(alloc);
    parts.push(first)?;
    loop {
        let part = unary(alloc, tokens, allowed)?;
        let end = part.span;
        parts.push(part)?;
        match tokens.take_sign(Sign::And) {
            None => return Ok(all_node(parts, start, end)),
            Some(_) => {}
        }
    }
}

/// unary = ( "!" | "?" ) unary | relation
#[cycle(parse)]
fn unary(alloc: Global, tokens: &mut TokenQueue, allowed: u32) -> Result<Node, ParseFault>
    ensures parsed { Parses UnaryLevel allowed tokens.old result tokens.new }
    ensures shorter { OnOk result (length tokens.new < length tokens.old) }
{
    match tokens.take_prefix() {
        None => relation(alloc, tokens, allowed),
        Some((prefix, from)) => {
            if allowed == 0 {
                return Err(ParseFault::Deep(tokens.len()));
            }
            let operand = unary(alloc, tokens, allowed - 1)?;
            prefixed(alloc, prefix, from, operand)
        }
    }
}

/// relation = sign braced | braced [ sign braced ]
#[cycle(parse)]
fn relation(alloc: Global, tokens: &mut TokenQueue, allowed: u32) -> Result<Node, ParseFault>
    ensures parsed { Parses RelationLevel allowed tokens.old result tokens.new }
    ensures shorter { OnOk result (length tokens.new < length tokens.old) }
{
    match tokens.take_relation() {
        Some((op, from)) => {
            let right = braced(alloc, tokens, allowed)?;
            pre_relation(alloc, op, from, right)
        }
        None => {
            let left = braced(alloc, tokens, allowed)?;
            match tokens.take_relation() {
                None => Ok(left),
                Some((op, _)) => {
                    let right = braced(alloc, tokens, allowed)?;
                    related(alloc, op, left, right)
                }
            }
        }
    }
}

/// braced = primary [ "{" { value } "}" ]
#[cycle(parse)]
fn braced(alloc: Global, tokens: &mut TokenQueue, allowed: u32) -> Result<Node, ParseFault>
    ensures parsed { Parses BracedLevel allowed tokens.old result tokens.new }
    ensures shorter { OnOk result (length tokens.new < length tokens.old) }
{
    let before = primary(alloc, tokens, allowed)?;
    match tokens.take_sign(Sign::OpenBraces) {
        None => Ok(before),
        Some(_) => {
            let inside = values_inside(alloc, tokens, allowed, Bracket::Braces)?;
            match tokens.take_sign(Sign::OpenBraces) {
                None => with_braces(alloc, before, inside),
                Some(_) => Err(ParseFault::Stray(tokens.len())),
            }
        }
    }
}

/// primary = atom | "[" { value } "]" | "(" { value } ")"
#[cycle(parse)]
fn primary(alloc: Global, tokens: &mut TokenQueue, allowed: u32) -> Result<Node, ParseFault>
    ensures parsed { Parses PrimaryLevel allowed tokens.old result tokens.new }
    ensures shorter { OnOk result (length tokens.new < length tokens.old) }
{
    match tokens.take() {
        None => Err(ParseFault::Ended),
        Some(PlacedToken { token, span }) => match begin(token) {
            Beginning::Atom(value) => Ok(Node { value, span }),
            Beginning::OpenList => {
                let inside = values_inside(alloc, tokens, allowed, Bracket::List)?;
                Ok(list_node(inside, span))
            }
            Beginning::OpenGroup => {
                let inside = values_inside(alloc, tokens, allowed, Bracket::Group)?;
                Ok(group_node(inside, span))
            }
            Beginning::Stray => Err(ParseFault::Stray(tokens.len())),
        },
    }
}

/// { value }, up to the sign that closes the bracket
#[cycle(parse)]
fn values_inside(
    alloc: Global,
    tokens: &mut TokenQueue,
    allowed: u32,
    bracket: Bracket,
) -> Result<Enclosed, ParseFault>
    ensures parsed { Encloses bracket allowed tokens.old result tokens.new }
    ensures shorter { OnOk result (length tokens.new < length tokens.old) }
{
    if allowed == 0 {
        return Err(ParseFault::Deep(tokens.len()));
    }
    let mut nodes = Items::new(alloc);
    loop {
        match tokens.take_sign(bracket.closing()) {
            Some(to) => return Ok(Enclosed { nodes, to }),
            None => {
                let node = value(alloc, tokens, allowed - 1)?;
                nodes.push(node)?;
            }
        }
    }
}

// An atom, if what stands after it does not go on with it.
fn lone_atom(tokens: &mut TokenQueue) -> Option<Node>
    ensures { ReadsLoneAtom tokens.old result tokens.new }
{
    if !tokens.next_is_lone() {
        return None;
    }
    match tokens.take() {
        None => None,
        Some(PlacedToken { token, span }) => match begin(token) {
            Beginning::Atom(value) => Some(Node { value, span }),
            _ => None,
        },
    }
}

fn begin(token: Token) -> Beginning
    ensures { IsBeginning token result }
{
    match token {
        Token::Flag(flag) => Beginning::Atom(Value::Flag(flag)),
        Token::Int(number) => Beginning::Atom(Value::Int(number)),
        Token::Text(bytes) => Beginning::Atom(Value::Text(bytes)),
        Token::Plain(name) => Beginning::Atom(Value::Ident(Var { scope: None, name })),
        Token::Scoped(scope, name) => Beginning::Atom(Value::Ident(Var {
            scope: Some(scope),
            name,
        })),
        Token::OpenList => Beginning::OpenList,
        Token::OpenGroup => Beginning::OpenGroup,
        _ => Beginning::Stray,
    }
}

// From the start of one span to the end of another.
fn spanning(value: Value, from: Span, to: Span) -> Node
    ensures value { result.value ≡ value }
    ensures start { result.span.start ≡ from.start }
    ensures end { result.span.end ≡ to.end }
{
    Node {
        value,
        span: Span {
            start: from.start,
            end: to.end,
        },
    }
}

fn list_node(inside: Enclosed, from: Span) -> Node
    ensures { result ≡ node (Value-F.List inside.nodes) from inside.to }
{
    spanning(Value::List(inside.nodes), from, inside.to)
}

fn group_node(inside: Enclosed, from: Span) -> Node
    ensures { result ≡ node (Value-F.Group inside.nodes) from inside.to }
{
    spanning(Value::Group(inside.nodes), from, inside.to)
}

fn all_node(parts: Items<Node>, from: Span, to: Span) -> Node
    ensures { result ≡ node (Value-F.And parts) from to }
{
    spanning(Value::And(parts), from, to)
}

fn any_node(parts: Items<Node>, from: Span, to: Span) -> Node
    ensures { result ≡ node (Value-F.Or parts) from to }
{
    spanning(Value::Or(parts), from, to)
}

fn update(alloc: Global, op: EnvOp, left: Node, right: Node) -> Result<Node, ParseFault>
    ensures { Makes (node (Value-F.Env op left right) left.span right.span) result }
{
    let (from, to) = (left.span, right.span);
    let value = Value::Env(op, Boxed::new(alloc, left)?, Boxed::new(alloc, right)?);
    Ok(spanning(value, from, to))
}

fn related(alloc: Global, op: RelOp, left: Node, right: Node) -> Result<Node, ParseFault>
    ensures { Makes (node (Value-F.Rel op left right) left.span right.span) result }
{
    let (from, to) = (left.span, right.span);
    let value = Value::Rel(op, Boxed::new(alloc, left)?, Boxed::new(alloc, right)?);
    Ok(spanning(value, from, to))
}

fn pre_relation(alloc: Global, op: RelOp, from: Span, right: Node) -> Result<Node, ParseFault>
    ensures { Makes (node (Value-F.PreRel op right) from right.span) result }
{
    let to = right.span;
    Ok(spanning(Value::PreRel(op, Boxed::new(alloc, right)?), from, to))
}

fn prefixed(alloc: Global, prefix: Prefix, from: Span, operand: Node) -> Result<Node, ParseFault>
    ensures { Makes (prefix_node prefix from operand) result }
{
    let to = operand.span;
    let operand = Boxed::new(alloc, operand)?;
    match prefix {
        Prefix::Not => Ok(spanning(Value::Not(operand), from, to)),
        Prefix::Defined => Ok(spanning(Value::Defined(operand), from, to)),
    }
}

fn with_braces(alloc: Global, before: Node, inside: Enclosed) -> Result<Node, ParseFault>
    ensures { Makes (node (Value-F.Braced before inside.nodes) before.span inside.to) result }
{
    let from = before.span;
    let value = Value::Braced(Boxed::new(alloc, before)?, inside.nodes);
    Ok(spanning(value, from, inside.to))
}

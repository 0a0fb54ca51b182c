// Tokens that are left to be parsed, and what comes next of them.
ghost use Rattle.std.specs.Prelude.{◌≡◌, length};
ghost use Rattle.std.specs.Option.{option_copied, is_some};
ghost use Rattle.syntax_trees.specs.Read.{placed_tokens};
ghost use Rattle.syntax_trees.specs.Parsing.{closing, ends_value, first_token, is_atom, next_is_lone, next_prefix, next_relation, next_sign, next_update, sign_of, Takes, TakesPrefix, TakesRelation, TakesSign, TakesUpdate};
ghost use Rattle.syntax_trees.specs.ParsingEntries.{next_text, text_of, TakesText};

use crate::token::{PlacedToken, Token};
use crate::{EnvOp, RelOp, Span};
use sqlite_items::Items;
use std::collections::VecDeque;
use std::marker::Model;

/// A sign that no value begins with.
#[derive(Clone, Copy, PartialEq, Eq)]
pub(crate) enum Sign {
    Colon,
    CloseList,
    OpenBraces,
    CloseBraces,
    CloseGroup,
    And,
    Or,
}

/// An operator that stands before its operand.
#[derive(Clone, Copy)]
pub(crate) enum Prefix {
    Not,
    Defined,
}

/// A bracket round values.
#[derive(Clone, Copy)]
pub(crate) enum Bracket {
    List,
    Group,
    Braces,
}

impl Bracket {
    pub(crate) fn closing(self) -> Sign
        ensures { result ≡ closing self }
    {
        match self {
            Bracket::List => Sign::CloseList,
            Bracket::Group => Sign::CloseGroup,
            Bracket::Braces => Sign::CloseBraces,
        }
    }
}

/// Tokens in their order, taken from the front.
#[derive(Drop)]
pub(crate) struct TokenQueue {
    left: VecDeque<PlacedToken>,
}

impl Model for TokenQueue {
    ghost use Rattle.std.specs.Prelude.{List};
    ghost use Rattle.syntax_trees.specs.Tokens.{Placed};
    ghost use Rattle.syntax_trees.specs.Read.{placed_tokens};

    ghost Value = { List Placed };

    ghost view = { λ q. placed_tokens q.left.items };
}

impl TokenQueue {
    pub(crate) fn from_vec(tokens: Vec<PlacedToken>) -> TokenQueue
        ensures { result ≡ placed_tokens tokens.items }
    {
        TokenQueue {
            left: VecDeque::from_vec(tokens),
        }
    }

    pub(crate) fn len(&self) -> usize
        ensures { result ≡ length self.now }
    {
        self.left.len()
    }

    fn first(&self) -> Option<&Token>
        ensures { option_copied result ≡ first_token self.now }
    {
        match self.left.front() {
            None => None,
            Some(next) => Some(&next.token),
        }
    }

    pub(crate) fn take(&mut self) -> Option<PlacedToken>
        ensures { Takes self.old result self.new }
    {
        self.left.pop_front()
    }

    fn next_sign(&self) -> Option<Sign>
        ensures { result ≡ next_sign self.now }
    {
        match self.first() {
            None => None,
            Some(token) => sign_of(token),
        }
    }

    /// Whether an atom comes next, and after it nothing that goes on with it.
    pub(crate) fn next_is_lone(&self) -> bool
        ensures { result ≡ next_is_lone self.now }
    {
        match (self.left.front(), self.left.get(1)) {
            (None, _) => false,
            (Some(next), None) => is_atom(&next.token),
            (Some(next), Some(after)) => is_atom(&next.token) && ends_value(&after.token),
        }
    }

    /// Takes the sign, if it comes next, and says where it stands.
    pub(crate) fn take_sign(&mut self, sign: Sign) -> Option<Span>
        ensures { TakesSign sign self.old result self.new }
    {
        if self.next_sign() != Some(sign) {
            return None;
        }
        match self.take() {
            None => None,
            Some(next) => Some(next.span),
        }
    }

    fn next_relation(&self) -> Option<RelOp>
        ensures { result ≡ next_relation self.now }
    {
        match self.first() {
            Some(Token::Relation(op)) => Some(*op),
            _ => None,
        }
    }

    /// Takes the sign of a relation, if one comes next.
    pub(crate) fn take_relation(&mut self) -> Option<(RelOp, Span)>
        ensures { TakesRelation self.old result self.new }
    {
        match self.next_relation() {
            None => None,
            Some(op) => match self.take() {
                None => None,
                Some(next) => Some((op, next.span)),
            },
        }
    }

    fn next_update(&self) -> Option<EnvOp>
        ensures { result ≡ next_update self.now }
    {
        match self.first() {
            Some(Token::Update(op)) => Some(*op),
            _ => None,
        }
    }

    /// Takes the sign of an update, if one comes next.
    pub(crate) fn take_update(&mut self) -> Option<(EnvOp, Span)>
        ensures { TakesUpdate self.old result self.new }
    {
        match self.next_update() {
            None => None,
            Some(op) => match self.take() {
                None => None,
                Some(next) => Some((op, next.span)),
            },
        }
    }

    fn next_is_text(&self) -> bool
        ensures { result ≡ is_some (next_text self.now) }
    {
        matches!(self.first(), Some(Token::Text(_)))
    }

    /// Takes a text, if one comes next.
    pub(crate) fn take_text(&mut self) -> Option<Items<u8>>
        ensures { TakesText self.old result self.new }
    {
        if !self.next_is_text() {
            return None;
        }
        match self.take() {
            None => None,
            Some(PlacedToken { token, .. }) => text_of(token),
        }
    }

    fn next_prefix(&self) -> Option<Prefix>
        ensures { result ≡ next_prefix self.now }
    {
        match self.first() {
            Some(Token::Not) => Some(Prefix::Not),
            Some(Token::Defined) => Some(Prefix::Defined),
            _ => None,
        }
    }

    /// Takes a prefix operator, if one comes next.
    pub(crate) fn take_prefix(&mut self) -> Option<(Prefix, Span)>
        ensures { TakesPrefix self.old result self.new }
    {
        match self.next_prefix() {
            None => None,
            Some(prefix) => match self.take() {
                None => None,
                Some(next) => Some((prefix, next.span)),
            },
        }
    }
}

fn is_atom(token: &Token) -> bool
    ensures { result ≡ is_atom token.now }
{
    matches!(
        token,
        Token::Flag(_) | Token::Int(_) | Token::Text(_) | Token::Plain(_) | Token::Scoped(_, _)
    )
}

fn ends_value(token: &Token) -> bool
    ensures { result ≡ ends_value token.now }
{
    !matches!(
        token,
        Token::OpenBraces | Token::And | Token::Or | Token::Relation(_) | Token::Update(_)
    )
}

fn text_of(token: Token) -> Option<Items<u8>>
    ensures { result ≡ text_of token }
{
    match token {
        Token::Text(bytes) => Some(bytes),
        _ => None,
    }
}

fn sign_of(token: &Token) -> Option<Sign>
    ensures { result ≡ sign_of token.now }
{
    match token {
        Token::Colon => Some(Sign::Colon),
        Token::CloseList => Some(Sign::CloseList),
        Token::OpenBraces => Some(Sign::OpenBraces),
        Token::CloseBraces => Some(Sign::CloseBraces),
        Token::CloseGroup => Some(Sign::CloseGroup),
        Token::And => Some(Sign::And),
        Token::Or => Some(Sign::Or),
        _ => None,
    }
}

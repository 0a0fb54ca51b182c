// Fields and sections are parsed one after another (opam manual, file format: general syntax).
ghost use Rattle.std.specs.Prelude.{◌≡◌, ◌≢◌, ◌≤◌, ◌<◌, ◌∷◌, [], length, Some, OnOk, IfOk, IfErr};
ghost use Rattle.syntax_trees.specs.declared.token.Token.TheVariants.{Plain};
ghost use Rattle.syntax_trees.specs.Tokens.{placed};
ghost use Rattle.syntax_trees.specs.Files.{AreEntries, field_entry, section_entry};
ghost use Rattle.syntax_trees.specs.Nesting.{AreShallow};
ghost use Rattle.syntax_trees.specs.Read.{entry_of, placed_tokens, read_entries, read_fields, read_places};
ghost use Rattle.syntax_trees.specs.Parsing.{next_sign};
ghost use Rattle.syntax_trees.specs.ParsingEntries.{HasNoShallow, MakesEntry, ReadsEntry, ReadsField, ReadsFields, ReadsName};

use crate::entry::{ReadContents, ReadEntry, ReadField};
use crate::fault::ParseFault;
use crate::limits::NESTING_LIMIT;
use crate::queue::{Sign, TokenQueue};
use crate::token::{PlacedToken, Token};
use crate::values::value;
use crate::{Key, Label, Node, Span, Word};
use opam_names::Items;
use std::alloc::Global;

/// A plain identifier where a field or a section begins.
#[derive(Drop)]
struct ReadName {
    word: Word,
    span: Span,
}

/// The fields of a section, and where the brace stands that closes it.
#[derive(Drop)]
struct FieldsInside {
    fields: Items<ReadField>,
    to: Span,
}

fn name(tokens: &mut TokenQueue) -> Result<ReadName, ParseFault>
    ensures { ReadsName tokens.old result tokens.new }
{
    match tokens.take() {
        None => Err(ParseFault::Ended),
        Some(PlacedToken { token, span }) => match token {
            Token::Plain(word) => Ok(ReadName { word, span }),
            _ => Err(ParseFault::Stray(tokens.len())),
        },
    }
}

// At the token that comes next.
fn misplaced(tokens: &TokenQueue) -> ParseFault
    ensures { result ≢ ParseFault.Memory }
{
    match tokens.len() {
        0 => ParseFault::Ended,
        left => ParseFault::Stray(left - 1),
    }
}

/// field = plain ":" value
fn field(alloc: Global, tokens: &mut TokenQueue, allowed: u32) -> Result<ReadField, ParseFault>
    ensures read { ReadsField allowed tokens.old result tokens.new }
    ensures shorter { OnOk result (length tokens.new < length tokens.old) }
{
    let ReadName { word, span } = name(tokens)?;
    match tokens.take_sign(Sign::Colon) {
        None => Err(misplaced(tokens)),
        Some(_) => {
            let value = value(alloc, tokens, allowed)?;
            Ok(ReadField {
                name: word,
                value,
                place: span.start,
            })
        }
    }
}

/// { field }, up to the brace that closes the section
fn fields(alloc: Global, tokens: &mut TokenQueue) -> Result<FieldsInside, ParseFault>
    ensures read { ReadsFields tokens.old result tokens.new }
    ensures shorter { OnOk result (length tokens.new < length tokens.old) }
{
    let mut fields = Items::new(alloc);
    loop {
        match tokens.take_sign(Sign::CloseBraces) {
            Some(to) => return Ok(FieldsInside { fields, to }),
            None => {
                let next = field(alloc, tokens, NESTING_LIMIT - 1)?;
                fields.push(next)?;
            }
        }
    }
}

/// field | section
fn entry(alloc: Global, tokens: &mut TokenQueue) -> Result<ReadEntry, ParseFault>
    ensures read { ReadsEntry tokens.old result tokens.new }
    ensures shorter { OnOk result (length tokens.new < length tokens.old) }
{
    let name = name(tokens)?;
    match tokens.take_sign(Sign::Colon) {
        Some(_) => {
            let value = value(alloc, tokens, NESTING_LIMIT)?;
            Ok(make_field(name, value))
        }
        None => section(alloc, tokens, name),
    }
}

/// section = plain [ text ] "{" { field } "}", after its name
fn section(alloc: Global, tokens: &mut TokenQueue, name: ReadName) -> Result<ReadEntry, ParseFault>
    requires { next_sign tokens.old ≢ Some Sign.Colon }
    ensures read { ReadsEntry (placed (Plain name.word) name.span ∷ tokens.old) result tokens.new }
    ensures shorter { OnOk result (length tokens.new < length tokens.old) }
{
    let text = tokens.take_text();
    match tokens.take_sign(Sign::OpenBraces) {
        None => Err(misplaced(tokens)),
        Some(_) => {
            let inside = fields(alloc, tokens)?;
            make_section(alloc, name, text, inside)
        }
    }
}

fn make_field(name: ReadName, value: Node) -> ReadEntry
    ensures { entry_of result ≡ field_entry name.word name.span value }
{
    let span = Span {
        start: name.span.start,
        end: value.span.end,
    };
    ReadEntry {
        key: Key {
            name: name.word,
            section: false,
            label: None,
        },
        contents: ReadContents::Field(value),
        span,
    }
}

fn make_section(
    alloc: Global,
    name: ReadName,
    text: Option<sqlite_items::Items<u8>>,
    inside: FieldsInside,
) -> Result<ReadEntry, ParseFault>
    ensures { MakesEntry (section_entry name.word text name.span
        (read_fields inside.fields) (read_places inside.fields) inside.to) result }
{
    let label = match text {
        None => None,
        Some(text) => Some(Label::from_vec(Vec::from_slice(alloc, text.as_slice())?)),
    };
    let FieldsInside { fields, to } = inside;
    let span = Span {
        start: name.span.start,
        end: to.end,
    };
    Ok(ReadEntry {
        key: Key {
            name: name.word,
            section: true,
            label,
        },
        contents: ReadContents::Section(fields),
        span,
    })
}

/// The entries that tokens spell. A fault other than want of memory comes only where they spell none that are shallow.
pub fn parse(alloc: Global, tokens: Vec<PlacedToken>) -> Result<Vec<ReadEntry>, ParseFault>
    ensures spelled { IfOk result (λ entries.
        AreEntries (placed_tokens tokens.items) (read_entries entries.items)) }
    ensures shallow { IfOk result (λ entries. AreShallow (read_entries entries.items)) }
    ensures refused { IfErr result (λ fault. fault ≢ ParseFault.Memory
        → HasNoShallow (placed_tokens tokens.items)) }
{
    let mut left = TokenQueue::from_vec(tokens);
    let mut entries = Vec::new(alloc);
    while left.len() > 0 {
        let next = entry(alloc, &mut left)?;
        entries.push(next)?;
    }
    Ok(entries)
}

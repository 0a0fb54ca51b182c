// A text is read in three passes: its tokens, its items, and the maps of its file. Where it is refused, its tokens are gone over once more for
// the place.
ghost use Rattle.std.specs.Prelude.{◌≡◌, ◌≢◌, ◌≤◌, length, IfErr, IfOk};
ghost use Rattle.syntax_trees.specs.Faults.{IsDerived, IsFaultOf, IsNowhereDeep};
ghost use Rattle.syntax_trees.specs.Read.{placed_tokens};
ghost use Rattle.opam_syntax.specs.Reading.{IsNoFile, IsRefused};
ghost use Rattle.syntax_trees.specs.Tokens.{AreTokens};
ghost use Rattle.syntax_trees.specs.Trees.{IsTextOf};

use opam_names::OutOfMemory;
use std::alloc::Global;
use syntax_places::fault_of;
use syntax_trees::{
    FILE_LIMIT, File, ParseFault, PlacedToken, ScanEnd, SyntaxFault, assemble, parse, scan,
};

/// The file of which the bytes are the text (opam manual, file format). A fault is that of the bytes, at its place; so they are the text of
/// no file, but for want of memory.
pub fn read_file(alloc: Global, bytes: &[u8]) -> Result<File, SyntaxFault>
    requires { length bytes.now ≤ FILE_LIMIT }
    ensures ok { IfOk result (λ file. IsTextOf bytes.now file) }
    ensures err { IfErr result (IsFaultOf bytes.now) }
    ensures refused { IfErr result (IsRefused bytes.now) }
{
    match read(alloc, bytes) {
        Ok(file) => Ok(file),
        Err(fault) => Err(fault),
    }
}

fn read(alloc: Global, bytes: &[u8]) -> Result<File, SyntaxFault>
    requires { length bytes.now ≤ FILE_LIMIT }
    ensures ok { IfOk result (λ file. IsTextOf bytes.now file) }
    ensures err { IfErr result (IsFaultOf bytes.now) }
{
    let scanned = scan(alloc, bytes)?;
    match scanned.end {
        ScanEnd::Whole => read_tokens(alloc, bytes, scanned.tokens),
        ScanEnd::Bad { start } => Err(fault_near(alloc, bytes, start as usize)),
    }
}

fn read_tokens(alloc: Global, bytes: &[u8], tokens: Vec<PlacedToken>) -> Result<File, SyntaxFault>
    requires limit { length bytes.now ≤ FILE_LIMIT }
    requires spelled { AreTokens (length bytes.now) bytes.now (placed_tokens tokens.items) }
    ensures ok { IfOk result (λ file. IsTextOf bytes.now file) }
    ensures err { IfErr result (IsFaultOf bytes.now) }
{
    match parse(alloc, tokens) {
        Ok(entries) => assemble(alloc, entries),
        Err(fault) => Err(parse_fault(alloc, bytes, fault)),
    }
}

// The fault of bytes of which the tokens are no items.
fn parse_fault(alloc: Global, bytes: &[u8], fault: ParseFault) -> SyntaxFault
    requires limit { length bytes.now ≤ FILE_LIMIT }
    requires none { fault ≢ ParseFault.Memory → IsNowhereDeep bytes.now → ¬ (IsDerived bytes.now) }
    ensures { IsFaultOf bytes.now result }
{
    match fault {
        ParseFault::Ended => fault_near(alloc, bytes, bytes.len()),
        ParseFault::Stray(left) => fault_near(alloc, bytes, token_start(alloc, bytes, left)),
        ParseFault::Deep(left) => fault_near(alloc, bytes, token_start(alloc, bytes, left)),
        ParseFault::Memory => SyntaxFault::Memory,
    }
}

// The fault of bytes that are no file, or that memory was wanting. Near the place it is found at once.
fn fault_near(alloc: Global, bytes: &[u8], near: usize) -> SyntaxFault
    requires limit { length bytes.now ≤ FILE_LIMIT }
    requires none { IsNowhereDeep bytes.now → ¬ (IsDerived bytes.now) }
    ensures { IsFaultOf bytes.now result }
{
    match fault_of(alloc, bytes, near) {
        Ok(fault) => fault,
        Err(OutOfMemory) => SyntaxFault::Memory,
    }
}

// Where the token begins after which so many stand; the start, if memory is wanting. The parser has used the tokens up, so they are read once
// more.
fn token_start(alloc: Global, bytes: &[u8], left: usize) -> usize
    requires { length bytes.now ≤ FILE_LIMIT }
{
    match scan(alloc, bytes) {
        Ok(scanned) => match scanned.tokens.iter().rev().nth(left) {
            Some(token) => token.span.start as usize,
            None => bytes.len(),
        },
        Err(OutOfMemory) => 0,
    }
}

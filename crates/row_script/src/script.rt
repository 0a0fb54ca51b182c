// A line of a script: the name of a call and its words.
use crate::fault::Fault;
use crate::lexer::{Lexer, Word};
use std::alloc::Global;

/// A call with its words.
#[derive(Drop)]
pub struct Call {
    pub name: String,
    pub words: Vec<Word>,
}

/// Cuts a line into the name of a call and its words.
pub fn read_call(alloc: Global, line: &[u8]) -> Result<Call, Fault> {
    let mut lexer = Lexer::new(alloc);
    for byte in line {
        lexer.take(*byte)?;
    }
    let mut words = lexer.finish()?;
    if words.is_empty() {
        return Err(Fault::Line("it is blank"));
    }
    let name = words.remove(0).string(alloc)?;
    Ok(Call { name, words })
}

impl Word {
    /// The word as a text.
    pub fn text(&self) -> Result<&str, Fault> {
        match str::from_utf8(self.bytes.as_slice()) {
            Ok(text) => Ok(text),
            Err(_) => Err(Fault::Line("a word is no UTF-8 text")),
        }
    }

    /// The same in memory of its own.
    pub fn string(&self, alloc: Global) -> Result<String, Fault> {
        Ok(String::from_str(alloc, self.text()?)?)
    }

    /// The number that it writes.
    pub fn number(&self) -> Result<u64, Fault> {
        match self.text()?.parse::<u64>() {
            Ok(number) => Ok(number),
            Err(_) => Err(Fault::Line("a word is no number")),
        }
    }

    /// Whether it is this word, without quotes.
    pub fn is(&self, word: &str) -> bool {
        !self.quoted && self.bytes.as_slice() == word.as_bytes()
    }
}

/// The texts of words.
pub fn strings(alloc: Global, words: &[Word]) -> Result<Vec<String>, Fault> {
    let mut texts = Vec::new(alloc);
    for word in words {
        texts.push(word.string(alloc)?)?;
    }
    Ok(texts)
}

/// The numbers that words write.
pub fn numbers(alloc: Global, words: &[Word]) -> Result<Vec<u64>, Fault> {
    let mut found = Vec::new(alloc);
    for word in words {
        found.push(word.number()?)?;
    }
    Ok(found)
}

/// The bytes of a word, in memory of their own.
pub fn same(alloc: Global, word: &Word) -> Result<Vec<u8>, Fault> {
    Ok(Vec::from_slice(alloc, word.bytes.as_slice())?)
}

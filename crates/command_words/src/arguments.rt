// The words after the command, as options with their values and plain words.
ghost use Rattle.std.specs.Prelude.{◌≡◌, ◌++◌, IfOk, OnOk, Some, map, string_bytes};
ghost use Rattle.command_words.specs.Arguments.{arguments, has_equals, is_option, single, takes_next};
ghost use Rattle.command_words.specs.declared.arguments.Argument.TheVariants.{Given, Plain};

use opam_names::{OutOfMemory, Text};
use std::alloc::Global;

// An option with its value, where it has one, or a plain word.
#[derive(Drop)]
pub enum Argument {
    Given { name: Text, value: Option<Text> },
    Plain(Text),
}

// What the words after the command are.
pub fn arguments(alloc: Global, words: &[String]) -> Result<Vec<Argument>, OutOfMemory>
    ensures { IfOk result (λ given. given.items ≡ arguments (map string_bytes words.now)) }
{
    let mut given = Vec::new(alloc);
    let mut rest = words;
    while let [word, more @ ..] = rest {
        let word = word.as_str();
        if word == "--" {
            push_plain(alloc, &mut given, more)?;
            break;
        }
        match more {
            [next, further @ ..] if takes_next(word) => {
                given.push(option_with(alloc, word, next.as_str())?)?;
                rest = further;
            }
            _ => {
                given.push(single(alloc, word)?)?;
                rest = more;
            }
        }
    }
    Ok(given)
}

fn push_plain(alloc: Global, given: &mut Vec<Argument>, words: &[String]) -> Result<(), OutOfMemory>
    ensures { OnOk result (given.new.items ≡ given.old.items ++ map Plain (map string_bytes words.now)) }
{
    for word in words {
        given.push(Argument::Plain(Text::from_str(alloc, word.as_str())?))?;
    }
    Ok(())
}

fn option_with(alloc: Global, name: &str, value: &str) -> Result<Argument, OutOfMemory>
    ensures { IfOk result (λ given. given ≡ Given name.now (Some value.now)) }
{
    Ok(Argument::Given {
        name: Text::from_str(alloc, name)?,
        value: Some(Text::from_str(alloc, value)?),
    })
}

// A word by itself.
fn single(alloc: Global, word: &str) -> Result<Argument, OutOfMemory>
    ensures { IfOk result (λ given. given ≡ single word.now) }
{
    if !is_option(word.as_bytes()) {
        return Ok(Argument::Plain(Text::from_str(alloc, word)?));
    }
    match word.split_once('=') {
        Some((name, value)) => option_with(alloc, name, value),
        None => Ok(Argument::Given {
            name: Text::from_str(alloc, word)?,
            value: None,
        }),
    }
}

// Whether the next word is the value of this one.
fn takes_next(word: &str) -> bool
    ensures { result ≡ takes_next word.now }
{
    is_option(word.as_bytes()) && !has_equals(word.as_bytes())
}

fn is_option(word: &[u8]) -> bool
    ensures { result ≡ is_option word.now }
{
    match word {
        [first, _, ..] => *first == b'-',
        _ => false,
    }
}

fn has_equals(word: &[u8]) -> bool
    ensures { result ≡ has_equals word.now }
{
    word.iter().any(|byte| *byte == b'=')
}

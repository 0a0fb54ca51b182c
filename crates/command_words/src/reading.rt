// From words to a command.
ghost use Rattle.std.specs.Prelude.{◌≡◌, ◌≢◌, IfErr, IfOk, Ok, Err, Some, map, string_bytes};
ghost use Rattle.command_words.specs.Arguments.{arguments};
ghost use Rattle.command_words.specs.Commands.{IsReadCommand};
ghost use Rattle.command_words.specs.Readings.{read_arguments, read_words};
ghost use Rattle.command_words.specs.declared.fault.WordFault.TheVariants.{Memory};

use crate::arguments::arguments;
use crate::building::command_of;
use crate::checking::check_all;
use crate::tables::Kind;
use crate::{Command, WordFault};
use opam_names::Text;
use std::alloc::Global;

/// Reads the words of a command line, without the program's name. The first is the command; up to `--` a word that
/// begins with `-` and is longer is an option, `--x=v` or `--x` with the next word as its value, and all others are plain.
pub fn read_words(alloc: Global, words: &[String]) -> Result<Command, WordFault>
    ensures ok { IfOk result (λ command. read_words (map string_bytes words.now) ≡ Ok command) }
    ensures err { IfErr result (λ fault. fault ≢ Memory → read_words (map string_bytes words.now) ≡ Err fault) }
    ensures valid { IfOk result IsReadCommand }
{
    let [first, rest @ ..] = words else {
        return Err(WordFault::NoCommand);
    };
    match Kind::of(first.as_str()) {
        Some(kind) => read_arguments(alloc, first.as_str(), kind, rest),
        None => Err(WordFault::UnknownCommand(Text::from_str(alloc, first.as_str())?)),
    }
}

fn read_arguments(
    alloc: Global,
    command: &str,
    kind: Kind,
    words: &[String],
) -> Result<Command, WordFault>
    ensures ok { IfOk result (λ c. read_arguments command.now (Some kind) (arguments (map string_bytes words.now)) ≡ Ok c) }
    ensures err { IfErr result (λ fault. fault ≢ Memory → read_arguments command.now (Some kind) (arguments (map string_bytes words.now)) ≡ Err fault) }
    ensures valid { IfOk result IsReadCommand }
{
    let given = arguments(alloc, words)?;
    check_all(alloc, command, kind, given.as_slice())?;
    Ok(command_of(alloc, command, kind, given.as_slice())?)
}

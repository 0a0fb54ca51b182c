// What is wrong with the words of a command line.
ghost use Rattle.std.specs.Prelude.{◌≡◌, ◌++◌, IfOk, string_bytes};
ghost use Rattle.command_words.specs.Texts.{fault_text};
ghost use Rattle.command_words.specs.declared.fault.WordFault.TheVariants.{Memory};

use opam_names::{OutOfMemory, Text};
use std::alloc::{AllocError, Global};

/// What is wrong with the words of a command line: the first fault from the left.
#[derive(Drop)]
pub enum WordFault {
    /// There is no word.
    NoCommand,
    /// The first word is no command.
    UnknownCommand(Text),
    /// The command has no such option. It is named up to its `=`.
    UnknownOption(Text),
    /// The option was given before.
    Repeated(Text),
    /// The option has no value.
    MissingValue(Text),
    /// The option has a value that it may not have.
    BadValue(Text, Text),
    /// The word is no package name, no package, or no name of a file.
    BadName(Text),
    /// The command has as many words as it may have before this one.
    ExtraWord(Text),
    /// An option is missing that the command needs.
    MissingOption,
    /// The command has no word and needs one.
    MissingWord(Text),
    /// Memory was refused.
    Memory,
}

impl WordFault {
    /// What is said of it, without a newline.
    pub fn text(&self, alloc: Global) -> Result<String, OutOfMemory>
        ensures { IfOk result (λ text. string_bytes text ≡ fault_text self.now) }
    {
        match self {
            WordFault::NoCommand => Ok(String::from_str(alloc, "no command")?),
            WordFault::UnknownCommand(word) => joined(alloc, "unknown command: ", word.as_str()),
            WordFault::UnknownOption(option) => joined(alloc, "unknown option: ", option.as_str()),
            WordFault::Repeated(option) => joined(alloc, option.as_str(), " is given twice"),
            WordFault::MissingValue(option) => joined(alloc, option.as_str(), " needs a value"),
            WordFault::BadValue(option, value) => {
                let mut text = joined(alloc, option.as_str(), " has a bad value: ")?;
                text.push_str(value.as_str())?;
                Ok(text)
            }
            WordFault::BadName(word) => joined(alloc, "bad name: ", word.as_str()),
            WordFault::ExtraWord(word) => joined(alloc, "one word too many: ", word.as_str()),
            WordFault::MissingOption => Ok(String::from_str(alloc, "--lock-file is missing")?),
            WordFault::MissingWord(command) => joined(alloc, command.as_str(), " needs a word"),
            WordFault::Memory => Ok(String::new(alloc)),
        }
    }
}

fn joined(alloc: Global, first: &str, second: &str) -> Result<String, OutOfMemory>
    ensures { IfOk result (λ text. string_bytes text ≡ first.now ++ second.now) }
{
    let mut text = String::from_str(alloc, first)?;
    text.push_str(second)?;
    Ok(text)
}

impl From<AllocError> for WordFault {
    ghost from_gives = { λ _ e. e ≡ Memory };

    fn from(_: AllocError) -> Self {
        WordFault::Memory
    }
}

impl From<OutOfMemory> for WordFault {
    ghost from_gives = { λ _ e. e ≡ Memory };

    fn from(_: OutOfMemory) -> Self {
        WordFault::Memory
    }
}

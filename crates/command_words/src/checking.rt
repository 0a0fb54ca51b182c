// The first fault of arguments, from the left.
ghost use Rattle.std.specs.Prelude.{◌≡◌, ◌≢◌, [], IfErr, IfOk, OnOk, None, Some};
ghost use Rattle.std.specs.List.{list_all};
ghost use Rattle.command_words.specs.Readings.{fault_at_end, fault_of, fault_of_known, fault_of_value, fault_of_word, first_fault, gives, has_word, is_enough, is_full, is_given, is_met, is_plain, is_word};
ghost use Rattle.command_words.specs.Tables.{row};
ghost use Rattle.command_words.specs.declared.fault.WordFault.TheVariants.{Memory};

use crate::WordFault;
use crate::arguments::Argument;
use crate::tables::{Kind, PlainKind, ValueKind};
use crate::values::{is_name, is_path, is_shown, is_value};
use opam_names::{OutOfMemory, Text};
use std::alloc::Global;

// Goes over the arguments of a command from the left.
pub fn check_all(
    alloc: Global,
    command: &str,
    kind: Kind,
    given: &[Argument],
) -> Result<(), WordFault>
    ensures ok { OnOk result (first_fault command.now (row kind) [] given.now ≡ None) }
    ensures err { IfErr result (λ fault. fault ≢ Memory → first_fault command.now (row kind) [] given.now ≡ Some fault) }
{
    for at in 0..given.len() {
        check(alloc, kind, &given[..at], &given[at])?;
    }
    check_end(alloc, command, kind, given)
}

// One argument after others.
fn check(alloc: Global, kind: Kind, before: &[Argument], next: &Argument) -> Result<(), WordFault>
    ensures ok { OnOk result (fault_of (row kind) before.now next.now ≡ None) }
    ensures err { IfErr result (λ fault. fault ≢ Memory → fault_of (row kind) before.now next.now ≡ Some fault) }
{
    match next {
        Argument::Plain(word) => check_word(alloc, kind.plain(), before, word),
        Argument::Given { name, value } => {
            let known = kind.value_of(name.as_str());
            let repeated = is_given(name.as_str(), before);
            check_option(alloc, known, repeated, name, value)
        }
    }
}

// An option, by what its value is, where the command has it, and whether it was given before.
fn check_option(
    alloc: Global,
    known: Option<ValueKind>,
    repeated: bool,
    name: &Text,
    value: &Option<Text>,
) -> Result<(), WordFault>
    ensures ok { OnOk result (fault_of_known known repeated name.now value.now ≡ None) }
    ensures err { IfErr result (λ fault. fault ≢ Memory → fault_of_known known repeated name.now value.now ≡ Some fault) }
{
    let Some(kind) = known else {
        return Err(WordFault::UnknownOption(name.copy(alloc)?));
    };
    if repeated {
        return Err(WordFault::Repeated(name.copy(alloc)?));
    }
    check_value(alloc, kind, name, value)
}

fn check_value(
    alloc: Global,
    kind: ValueKind,
    name: &Text,
    value: &Option<Text>,
) -> Result<(), WordFault>
    ensures ok { OnOk result (fault_of_value kind name.now value.now ≡ None) }
    ensures err { IfErr result (λ fault. fault ≢ Memory → fault_of_value kind name.now value.now ≡ Some fault) }
{
    match value {
        None => Err(WordFault::MissingValue(name.copy(alloc)?)),
        Some(text) if is_value(kind, text.as_str()) => Ok(()),
        Some(text) => Err(WordFault::BadValue(name.copy(alloc)?, text.copy(alloc)?)),
    }
}

fn check_word(
    alloc: Global,
    kind: PlainKind,
    before: &[Argument],
    word: &Text,
) -> Result<(), WordFault>
    ensures ok { OnOk result (fault_of_word kind before.now word.now ≡ None) }
    ensures err { IfErr result (λ fault. fault ≢ Memory → fault_of_word kind before.now word.now ≡ Some fault) }
{
    if is_full(kind, before) {
        return Err(WordFault::ExtraWord(word.copy(alloc)?));
    }
    if is_word(alloc, kind, word.as_str())? {
        Ok(())
    } else {
        Err(WordFault::BadName(word.copy(alloc)?))
    }
}

fn check_end(alloc: Global, command: &str, kind: Kind, given: &[Argument]) -> Result<(), WordFault>
    ensures ok { OnOk result (fault_at_end command.now (row kind) given.now ≡ None) }
    ensures err { IfErr result (λ fault. fault ≢ Memory → fault_at_end command.now (row kind) given.now ≡ Some fault) }
{
    if !has_required(kind, given) {
        return Err(WordFault::MissingOption);
    }
    if is_enough(kind.plain(), given) {
        Ok(())
    } else {
        Err(WordFault::MissingWord(Text::from_str(alloc, command)?))
    }
}

// Whether all options are given that a command needs.
fn has_required(kind: Kind, given: &[Argument]) -> bool
    ensures { result ≡ list_all (is_met given.now) (row kind).options }
{
    match kind {
        Kind::Install => is_given("--lock-file", given),
        _ => true,
    }
}

fn is_given(option: &str, given: &[Argument]) -> bool
    ensures { result ≡ is_given option.now given.now }
{
    given.iter().any(|argument| gives(option, argument))
}

fn gives(option: &str, argument: &Argument) -> bool
    ensures { result ≡ gives option.now argument.now }
{
    match argument {
        Argument::Given { name, .. } => option == name.as_str(),
        Argument::Plain(_) => false,
    }
}

fn has_word(given: &[Argument]) -> bool
    ensures { result ≡ has_word given.now }
{
    given.iter().any(|argument| is_plain(argument))
}

fn is_plain(argument: &Argument) -> bool
    ensures { result ≡ is_plain argument.now }
{
    match argument {
        Argument::Given { .. } => false,
        Argument::Plain(_) => true,
    }
}

// Whether a command has as many plain words as it may.
fn is_full(kind: PlainKind, given: &[Argument]) -> bool
    ensures { result ≡ is_full kind given.now }
{
    match kind {
        PlainKind::Nothing => true,
        PlainKind::Names | PlainKind::SomeNames => false,
        PlainKind::Package | PlainKind::File => has_word(given),
    }
}

// And as many as it needs.
fn is_enough(kind: PlainKind, given: &[Argument]) -> bool
    ensures { result ≡ is_enough kind given.now }
{
    match kind {
        PlainKind::Nothing | PlainKind::Names => true,
        PlainKind::SomeNames | PlainKind::Package | PlainKind::File => has_word(given),
    }
}

fn is_word(alloc: Global, kind: PlainKind, word: &str) -> Result<bool, OutOfMemory>
    ensures { IfOk result (λ fits. fits ≡ is_word kind word.now) }
{
    match kind {
        PlainKind::Nothing => Ok(true),
        PlainKind::Names | PlainKind::SomeNames => is_name(alloc, word),
        PlainKind::Package => is_shown(alloc, word),
        PlainKind::File => Ok(is_path(word)),
    }
}

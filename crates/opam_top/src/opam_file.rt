// Opam files.
ghost use Rattle.std.specs.Prelude.{◌≡◌, ◌≤◌, ◌++◌, ◌+◌, ◌*◌, ◌-◌, ◌%◌, [], ◌∷◌, Some, None, IfOk, IfSome, OnOk, if◌then◌else◌, length};
ghost use Rattle.std.specs.List.{list_all};
ghost use Rattle.opam_top.specs.OpamFiles.{all_escaped, command_text, decode_byte, decode_escape, decode_in, decoded, digits_escape, escaped, fresh_decoder, further_commands, further_words, is_control, is_word, is_word_byte, named_byte, opam_text, read_opam, read_spelled_commands, spaced_commands, spaced_words, with_byte, with_command, with_word, word_text};
ghost use Rattle.opam_top.specs.declared.opam_file.State.TheVariants.{Outside, InList, InCommand, InWord};

use opam_names::{Items, OutOfMemory, Text};
use std::alloc::Global;
use std::mem;

const VERSION_LINE: &[u8] = b"opam-version: \"2.0\"\n";

// Where a decoder stands.
#[derive(Clone, Copy)]
pub enum State {
    // before the list of commands, or behind it
    Outside,
    InList,
    InCommand,
    InWord,
    AfterBackslash,
    // the values of the digits so far
    AfterDigit(u8),
    AfterDigits(u8, u8),
}

// What is read so far: whole commands, the whole words of the next one, and the bytes of the next word.
#[derive(Drop)]
pub struct Decoder {
    pub state: State,
    pub word: Items<u8>,
    pub words: Items<Items<u8>>,
    pub commands: Items<Items<Items<u8>>>,
}

// The commands of an opam file, or `None` where its text is not built.
pub fn commands_of(alloc: Global, bytes: &[u8]) -> Result<Option<Items<Items<Text>>>, OutOfMemory>
    ensures read { IfOk result (λ commands. commands ≡ read_opam bytes.now) }
    ensures few { IfOk result (λ commands. IfSome commands (λ list. length list ≤ 64)) }
{
    if bytes == VERSION_LINE {
        return Ok(Some(Items::new(alloc)));
    }
    let commands = decoded(alloc, bytes)?;
    read_spelled(alloc, bytes, commands.as_slice())
}

// The commands, if they are some and these bytes spell them.
fn read_spelled(
    alloc: Global,
    bytes: &[u8],
    commands: &[Items<Items<u8>>],
) -> Result<Option<Items<Items<Text>>>, OutOfMemory>
    ensures { IfOk result (λ read. read ≡ read_spelled_commands bytes.now commands.now) }
{
    if commands.len() > 64 {
        return Ok(None);
    }
    let text = text_of_commands(alloc, commands)?;
    if bytes != text.as_slice() {
        return Ok(None);
    }
    texts_of_commands(alloc, commands)
}

// The words of commands as texts, or `None` where one is no word.
fn texts_of_commands(
    alloc: Global,
    commands: &[Items<Items<u8>>],
) -> Result<Option<Items<Items<Text>>>, OutOfMemory>
    ensures { IfOk result (λ texts. texts ≡ (if list_all (list_all is_word) commands.now then Some commands.now else None)) }
{
    let mut texts = Items::new(alloc);
    for command in commands {
        match texts_of_command(alloc, command.as_slice())? {
            None => return Ok(None),
            Some(words) => texts.push(words)?,
        }
    }
    Ok(Some(texts))
}

fn texts_of_command(alloc: Global, words: &[Items<u8>]) -> Result<Option<Items<Text>>, OutOfMemory>
    ensures { IfOk result (λ texts. texts ≡ (if list_all is_word words.now then Some words.now else None)) }
{
    let mut texts = Items::new(alloc);
    for word in words {
        match text_of_word(alloc, word.as_slice())? {
            None => return Ok(None),
            Some(text) => texts.push(text)?,
        }
    }
    Ok(Some(texts))
}

fn text_of_word(alloc: Global, word: &[u8]) -> Result<Option<Text>, OutOfMemory>
    ensures { IfOk result (λ text. text ≡ (if is_word word.now then Some word.now else None)) }
{
    if !has_word_bytes(word) {
        return Ok(None);
    }
    match str::from_utf8(word) {
        Ok(text) => Ok(Some(Text::from_str(alloc, text)?)),
        Err(_) => Ok(None),
    }
}

fn has_word_bytes(word: &[u8]) -> bool
    ensures { result ≡ list_all is_word_byte word.now }
{
    word.iter().all(|byte| is_word_byte(*byte))
}

fn is_word_byte(byte: u8) -> bool
    ensures { result ≡ is_word_byte byte }
{
    byte != 0 && byte != b'%'
}

// The commands of bytes that spell some.
fn decoded(alloc: Global, bytes: &[u8]) -> Result<Items<Items<Items<u8>>>, OutOfMemory>
    ensures { IfOk result (λ commands. commands ≡ decoded bytes.now) }
{
    let mut decoder = Decoder::new(alloc);
    for byte in bytes {
        decoder.decode(alloc, *byte)?;
    }
    Ok(decoder.commands)
}

impl Decoder {
    fn new(alloc: Global) -> Decoder
        ensures { result ≡ fresh_decoder }
    {
        Decoder {
            state: State::Outside,
            word: Items::new(alloc),
            words: Items::new(alloc),
            commands: Items::new(alloc),
        }
    }

    fn decode(&mut self, alloc: Global, byte: u8) -> Result<(), OutOfMemory>
        ensures { OnOk result (self.new ≡ decode_byte self.old byte) }
    {
        match self.state {
            State::Outside => {
                self.decode_outside(byte);
                Ok(())
            }
            State::InList => {
                self.decode_in_list(byte);
                Ok(())
            }
            State::InCommand => self.decode_in_command(alloc, byte),
            State::InWord => self.decode_in_word(alloc, byte),
            State::AfterBackslash => self.decode_escape(byte),
            State::AfterDigit(first) => {
                self.state = State::AfterDigits(first, digit_value(byte));
                Ok(())
            }
            State::AfterDigits(first, second) => self.push_byte(byte_of_digits(
                first,
                second,
                digit_value(byte),
            )),
        }
    }

    fn decode_outside(&mut self, byte: u8)
        ensures { self.new ≡ decode_in Outside self.old byte }
    {
        if byte == b'[' {
            self.state = State::InList;
        }
    }

    fn decode_in_list(&mut self, byte: u8)
        ensures { self.new ≡ decode_in InList self.old byte }
    {
        if byte == b'[' {
            self.state = State::InCommand;
        } else if byte == b']' {
            self.state = State::Outside;
        }
    }

    fn decode_in_command(&mut self, alloc: Global, byte: u8) -> Result<(), OutOfMemory>
        ensures { OnOk result (self.new ≡ decode_in InCommand self.old byte) }
    {
        if byte == b'"' {
            self.state = State::InWord;
            Ok(())
        } else if byte == b']' {
            self.push_command(alloc)
        } else {
            Ok(())
        }
    }

    fn decode_in_word(&mut self, alloc: Global, byte: u8) -> Result<(), OutOfMemory>
        ensures { OnOk result (self.new ≡ decode_in InWord self.old byte) }
    {
        if byte == b'"' {
            self.push_word(alloc)
        } else if byte == b'\\' {
            self.state = State::AfterBackslash;
            Ok(())
        } else {
            self.push_byte(byte)
        }
    }

    fn decode_escape(&mut self, byte: u8) -> Result<(), OutOfMemory>
        ensures { OnOk result (self.new ≡ decode_escape self.old byte (named_byte byte)) }
    {
        match named_byte(byte) {
            Some(named) => self.push_byte(named),
            None => {
                self.state = State::AfterDigit(digit_value(byte));
                Ok(())
            }
        }
    }

    fn push_byte(&mut self, byte: u8) -> Result<(), OutOfMemory>
        ensures { OnOk result (self.new ≡ with_byte self.old byte) }
    {
        self.word.push(byte)?;
        self.state = State::InWord;
        Ok(())
    }

    fn push_word(&mut self, alloc: Global) -> Result<(), OutOfMemory>
        ensures { OnOk result (self.new ≡ with_word self.old) }
    {
        let word = mem::replace(&mut self.word, Items::new(alloc));
        self.words.push(word)?;
        self.state = State::InCommand;
        Ok(())
    }

    fn push_command(&mut self, alloc: Global) -> Result<(), OutOfMemory>
        ensures { OnOk result (self.new ≡ with_command self.old) }
    {
        let words = mem::replace(&mut self.words, Items::new(alloc));
        self.commands.push(words)?;
        self.state = State::InList;
        Ok(())
    }
}

fn digit_value(byte: u8) -> u8
    ensures { result ≡ byte - 48 }
{
    byte.saturating_sub(b'0')
}

fn byte_of_digits(first: u8, second: u8, third: u8) -> u8
    ensures { result ≡ (first * 100 + second * 10 + third) % 256 }
{
    let number = u32::from(first) * 100 + u32::from(second) * 10 + u32::from(third);
    (number % 256) as u8
}

// The byte that a backslash and this one stand for, unless it is the first of three digits.
fn named_byte(byte: u8) -> Option<u8>
    ensures { result ≡ named_byte byte }
{
    match byte {
        b'"' => Some(b'"'),
        b'\\' => Some(b'\\'),
        b'n' => Some(b'\n'),
        b't' => Some(b'\t'),
        b'r' => Some(b'\r'),
        _ => None,
    }
}

// The canonical spelling.
fn text_of_commands(alloc: Global, commands: &[Items<Items<u8>>]) -> Result<Vec<u8>, OutOfMemory>
    ensures { IfOk result (λ text. text.items ≡ opam_text commands.now) }
{
    let mut text = Vec::from_slice(alloc, VERSION_LINE)?;
    text.extend_from_slice(b"build: [")?;
    push_spaced_commands(&mut text, commands)?;
    text.extend_from_slice(b"]\n")?;
    Ok(text)
}

fn push_spaced_commands(
    text: &mut Vec<u8>,
    commands: &[Items<Items<u8>>],
) -> Result<(), OutOfMemory>
    ensures { OnOk result (text.new.items ≡ text.old.items ++ spaced_commands commands.now) }
{
    match commands {
        [] => Ok(()),
        [first, more @ ..] => {
            push_command(text, first.as_slice())?;
            push_further_commands(text, more)
        }
    }
}

fn push_further_commands(
    text: &mut Vec<u8>,
    commands: &[Items<Items<u8>>],
) -> Result<(), OutOfMemory>
    ensures { OnOk result (text.new.items ≡ text.old.items ++ further_commands commands.now) }
{
    for command in commands {
        text.extend_from_slice(b" ")?;
        push_command(text, command.as_slice())?;
    }
    Ok(())
}

fn push_command(text: &mut Vec<u8>, words: &[Items<u8>]) -> Result<(), OutOfMemory>
    ensures { OnOk result (text.new.items ≡ text.old.items ++ command_text words.now) }
{
    text.extend_from_slice(b"[")?;
    push_spaced_words(text, words)?;
    text.extend_from_slice(b"]")?;
    Ok(())
}

fn push_spaced_words(text: &mut Vec<u8>, words: &[Items<u8>]) -> Result<(), OutOfMemory>
    ensures { OnOk result (text.new.items ≡ text.old.items ++ spaced_words words.now) }
{
    match words {
        [] => Ok(()),
        [first, more @ ..] => {
            push_word(text, first.as_slice())?;
            push_further_words(text, more)
        }
    }
}

fn push_further_words(text: &mut Vec<u8>, words: &[Items<u8>]) -> Result<(), OutOfMemory>
    ensures { OnOk result (text.new.items ≡ text.old.items ++ further_words words.now) }
{
    for word in words {
        text.extend_from_slice(b" ")?;
        push_word(text, word.as_slice())?;
    }
    Ok(())
}

fn push_word(text: &mut Vec<u8>, word: &[u8]) -> Result<(), OutOfMemory>
    ensures { OnOk result (text.new.items ≡ text.old.items ++ word_text word.now) }
{
    text.extend_from_slice(b"\"")?;
    push_all_escaped(text, word)?;
    text.extend_from_slice(b"\"")?;
    Ok(())
}

fn push_all_escaped(text: &mut Vec<u8>, bytes: &[u8]) -> Result<(), OutOfMemory>
    ensures { OnOk result (text.new.items ≡ text.old.items ++ all_escaped bytes.now) }
{
    for byte in bytes {
        push_escaped(text, *byte)?;
    }
    Ok(())
}

fn push_escaped(text: &mut Vec<u8>, byte: u8) -> Result<(), OutOfMemory>
    ensures { OnOk result (text.new.items ≡ text.old.items ++ escaped byte) }
{
    match byte {
        b'"' => text.extend_from_slice(b"\\\"")?,
        b'\\' => text.extend_from_slice(b"\\\\")?,
        b'\n' => text.extend_from_slice(b"\\n")?,
        b'\t' => text.extend_from_slice(b"\\t")?,
        b'\r' => text.extend_from_slice(b"\\r")?,
        _ => push_unnamed(text, byte)?,
    }
    Ok(())
}

// Writes a byte that no letter stands for.
fn push_unnamed(text: &mut Vec<u8>, byte: u8) -> Result<(), OutOfMemory>
    ensures { OnOk result (text.new.items ≡ text.old.items ++ (if is_control byte then digits_escape byte else byte ∷ [])) }
{
    if is_control(byte) {
        text.extend_from_slice(&[
            b'\\',
            b'0' + byte / 100,
            b'0' + byte / 10 % 10,
            b'0' + byte % 10,
        ])?;
    } else {
        text.push(byte)?;
    }
    Ok(())
}

fn is_control(byte: u8) -> bool
    ensures { result ≡ is_control byte }
{
    byte < 32 || byte == 127
}

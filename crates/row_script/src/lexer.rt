// The words of a line. They stand between blanks. A word is made of bare parts and of texts in quotes, with nothing
// between them; a text may be followed by `*` and a number, and is then repeated so often. In quotes `\n`, `\"`, `\\`
// and `\xHH` stand for bytes, and `\i` for the number of the repetition, from 0001 on. This project's own.
use crate::fault::Fault;
use std::alloc::Global;
use std::mem;

/// No word may be longer, in bytes.
const LONGEST: usize = 16777216;

/// A word of a line.
#[derive(Drop)]
pub struct Word {
    pub bytes: Vec<u8>,
    /// A part of it was in quotes.
    pub quoted: bool,
}

// What a text in quotes is made of.
#[derive(Clone, Copy)]
enum Piece {
    Byte(u8),
    /// The number of the repetition.
    Number,
}

#[derive(Clone, Copy)]
enum State {
    Between,
    Bare,
    Quoted,
    Escape,
    /// The first digit of `\xHH` comes next.
    High,
    /// The second digit, after this first one.
    Low(u8),
    /// After the closing quote.
    Closed,
    /// After `*`, with the number so far.
    Times(usize),
}

/// Takes a line byte by byte.
#[derive(Drop)]
pub struct Lexer {
    alloc: Global,
    words: Vec<Word>,
    word: Word,
    text: Vec<Piece>,
    state: State,
}

fn empty_word(alloc: Global) -> Word {
    Word {
        bytes: Vec::new(alloc),
        quoted: false,
    }
}

impl Lexer {
    pub fn new(alloc: Global) -> Lexer {
        Lexer {
            alloc,
            words: Vec::new(alloc),
            word: empty_word(alloc),
            text: Vec::new(alloc),
            state: State::Between,
        }
    }

    pub fn take(&mut self, byte: u8) -> Result<(), Fault> {
        match self.state {
            State::Between | State::Bare => self.take_bare(byte),
            State::Quoted => self.take_quoted(byte),
            State::Escape => self.take_escaped(byte),
            State::High => self.take_high(byte),
            State::Low(high) => self.take_low(high, byte),
            State::Closed => self.take_closed(byte),
            State::Times(times) => self.take_times(times, byte),
        }
    }

    /// The words, where the line has ended.
    pub fn finish(mut self) -> Result<Vec<Word>, Fault> {
        match self.state {
            State::Between | State::Bare | State::Closed | State::Times(_) => self.take(b' ')?,
            State::Quoted | State::Escape | State::High | State::Low(_) => {
                return Err(Fault::Line("a text is not closed"));
            }
        }
        Ok(mem::replace(&mut self.words, Vec::new(self.alloc)))
    }

    // A byte outside quotes.
    fn take_bare(&mut self, byte: u8) -> Result<(), Fault> {
        match byte {
            b' ' => self.end_word(),
            b'"' => {
                self.word.quoted = true;
                self.state = State::Quoted;
                Ok(())
            }
            _ => {
                self.state = State::Bare;
                Ok(self.word.bytes.push(byte)?)
            }
        }
    }

    fn end_word(&mut self) -> Result<(), Fault> {
        if !matches!(self.state, State::Between) {
            let word = mem::replace(&mut self.word, empty_word(self.alloc));
            self.words.push(word)?;
        }
        self.state = State::Between;
        Ok(())
    }

    fn take_quoted(&mut self, byte: u8) -> Result<(), Fault> {
        match byte {
            b'"' => self.state = State::Closed,
            b'\\' => self.state = State::Escape,
            _ => self.text.push(Piece::Byte(byte))?,
        }
        Ok(())
    }

    fn take_escaped(&mut self, byte: u8) -> Result<(), Fault> {
        let piece = match byte {
            b'n' => Piece::Byte(b'\n'),
            b'"' | b'\\' => Piece::Byte(byte),
            b'i' => Piece::Number,
            b'x' => {
                self.state = State::High;
                return Ok(());
            }
            _ => return Err(Fault::Line("an escape is unknown")),
        };
        self.state = State::Quoted;
        Ok(self.text.push(piece)?)
    }

    fn take_high(&mut self, byte: u8) -> Result<(), Fault> {
        self.state = State::Low(digit(byte)?);
        Ok(())
    }

    fn take_low(&mut self, high: u8, byte: u8) -> Result<(), Fault> {
        let value = u32::from(high) * 16 + u32::from(digit(byte)?);
        self.state = State::Quoted;
        Ok(self.text.push(Piece::Byte((value % 256) as u8))?)
    }

    fn take_closed(&mut self, byte: u8) -> Result<(), Fault> {
        if byte == b'*' {
            self.state = State::Times(0);
            return Ok(());
        }
        self.add_text(1)?;
        self.take_bare(byte)
    }

    fn take_times(&mut self, times: usize, byte: u8) -> Result<(), Fault> {
        if byte.is_ascii_digit() {
            let times = times
                .saturating_mul(10)
                .saturating_add(usize::from(byte % 16));
            self.state = State::Times(times);
            return Ok(());
        }
        self.add_text(times)?;
        self.take_bare(byte)
    }

    // Adds the text so often to the word.
    fn add_text(&mut self, times: usize) -> Result<(), Fault> {
        let text = mem::replace(&mut self.text, Vec::new(self.alloc));
        self.state = State::Bare;
        if text.len().saturating_mul(times) > LONGEST {
            return Err(Fault::Line("a text is too long"));
        }
        for time in 0..times {
            self.add_once(text.as_slice(), time)?;
        }
        Ok(())
    }

    fn add_once(&mut self, text: &[Piece], time: usize) -> Result<(), Fault> {
        if self.word.bytes.len() > LONGEST {
            return Err(Fault::Line("a word is too long"));
        }
        for piece in text {
            match piece {
                Piece::Byte(byte) => self.word.bytes.push(*byte)?,
                Piece::Number => {
                    let number = time.saturating_add(1);
                    let number = format!(in self.alloc; "{number:04}")?;
                    self.word.bytes.extend_from_slice(number.as_bytes())?;
                }
            }
        }
        Ok(())
    }
}

// The value of a hexadecimal digit, of either case.
fn digit(byte: u8) -> Result<u8, Fault> {
    match byte {
        b'0'..=b'9' => Ok(byte - b'0'),
        b'a'..=b'f' => Ok(byte - b'a' + 10),
        b'A'..=b'F' => Ok(byte - b'A' + 10),
        _ => Err(Fault::Line("a digit is missing after \\x")),
    }
}

// How many brackets and prefix operators are open, told by tokens alone.
ghost use Rattle.std.specs.Prelude.{◌≡◌, ◌+◌, ◌<◌, true, Some, None, OnOk, if◌then◌else◌};
ghost use Rattle.syntax_trees.specs.Faults.{is_opening};
ghost use Rattle.syntax_trees.specs.Heights.{begun_height, bracket_closed, bracket_opened, height_start, height_step, mode_after, operand_anew, operand_height, operand_prefixed, operand_read, relation_begun, relation_height, token_height};
ghost use Rattle.syntax_places.specs.HeightsSeen.{heights_of, mode_of};

use opam_names::OutOfMemory;
use std::alloc::Global;
use syntax_trees::{NESTING_LIMIT, Token};

/// What may come next in a value: an operand, the sign of a relation after its left side, its right side, or what stands
/// after that.
#[derive(Clone, Copy, Debug)]
pub(crate) enum Mode {
    Wanted,
    LeftRead,
    RightWanted,
    RightRead,
}

/// What is known again where a bracket closes.
#[derive(Clone, Copy, Debug)]
pub(crate) struct Kept {
    floor: u32,
    level: u32,
    mode: Mode,
}

/// How many brackets are open, and how many with the prefix operators of the operand that is read.
#[derive(Drop)]
pub(crate) struct Heights {
    floor: u32,
    level: u32,
    mode: Mode,
    // That of the innermost bracket is the last.
    kept: Vec<Kept>,
}

impl Heights {
    /// Before the first token.
    pub fn new(alloc: Global) -> Heights
        ensures { heights_of result ≡ height_start }
    {
        Heights {
            floor: 0,
            level: 0,
            mode: Mode::Wanted,
            kept: Vec::new(alloc),
        }
    }

    // What begins here is nested so deep.
    fn begun(&self) -> u32
        ensures { result ≡ begun_height (heights_of self.now) }
    {
        match self.mode {
            Mode::Wanted | Mode::RightWanted => self.level,
            Mode::LeftRead | Mode::RightRead => self.floor,
        }
    }

    /// What an opening bracket or a prefix operator is nested in; none for another token.
    pub fn opening(&self, token: &Token) -> Option<u32>
        ensures { result ≡ (if is_opening token.now
            then Some (token_height (heights_of self.now) token.now) else None) }
    {
        match token {
            Token::OpenList | Token::OpenGroup | Token::Not | Token::Defined => Some(self.begun()),
            Token::OpenBraces => Some(self.level),
            _ => None,
        }
    }

    /// The token is taken.
    pub fn take(&mut self, token: &Token) -> Result<(), OutOfMemory>
        requires { is_opening token.now ≡ true → token_height (heights_of self.old) token.now < NESTING_LIMIT }
        ensures { OnOk result (heights_of self.new ≡ height_step (heights_of self.old) token.now) }
    {
        match token {
            Token::Flag(_)
            | Token::Int(_)
            | Token::Text(_)
            | Token::Plain(_)
            | Token::Scoped(_, _) => self.read_operand(),
            Token::Colon | Token::Update(_) | Token::And | Token::Or => self.begin_anew(),
            Token::OpenList | Token::OpenGroup => {
                let begun = self.begun();
                let mode = self.mode.after();
                self.open(begun, mode)?;
            }
            Token::OpenBraces => {
                let level = self.level;
                let mode = self.mode;
                self.open(level, mode)?;
            }
            Token::CloseList | Token::CloseGroup | Token::CloseBraces => self.close(),
            Token::Relation(_) => self.begin_relation(),
            Token::Not | Token::Defined => self.prefix(),
        }
        Ok(())
    }

    fn read_operand(&mut self)
        ensures { heights_of self.new ≡ operand_read (heights_of self.old) }
    {
        self.level = self.begun();
        self.mode = self.mode.after();
    }

    fn begin_anew(&mut self)
        ensures { heights_of self.new ≡ operand_anew (heights_of self.old) }
    {
        self.level = self.floor;
        self.mode = Mode::Wanted;
    }

    fn prefix(&mut self)
        requires { begun_height (heights_of self.old) < NESTING_LIMIT }
        ensures { heights_of self.new ≡ operand_prefixed (heights_of self.old) }
    {
        self.level = self.begun() + 1;
        self.mode = Mode::Wanted;
    }

    fn begin_relation(&mut self)
        ensures { heights_of self.new ≡ relation_begun (heights_of self.old) }
    {
        if let Mode::RightRead = self.mode {
            self.level = self.floor;
        }
        self.mode = Mode::RightWanted;
    }

    fn open(&mut self, at: u32, mode: Mode) -> Result<(), OutOfMemory>
        requires { at < NESTING_LIMIT }
        ensures { OnOk result (heights_of self.new ≡ bracket_opened (heights_of self.old) at (mode_of mode)) }
    {
        self.kept.push(Kept {
            floor: self.floor,
            level: at,
            mode,
        })?;
        self.floor = at + 1;
        self.level = at + 1;
        self.mode = Mode::Wanted;
        Ok(())
    }

    fn close(&mut self)
        ensures { let s = heights_of self.old in heights_of self.new ≡ bracket_closed s s.kept }
    {
        match self.kept.pop() {
            None => {}
            Some(kept) => {
                self.floor = kept.floor;
                self.level = kept.level;
                self.mode = kept.mode;
            }
        }
    }
}

impl Mode {
    fn after(self) -> Mode
        ensures { mode_of result ≡ mode_after (mode_of self) }
    {
        match self {
            Mode::RightWanted => Mode::RightRead,
            _ => Mode::LeftRead,
        }
    }
}

// Which token may follow those before it: what is expected, and which brackets are open.
ghost use Rattle.std.specs.Prelude.{◌≡◌, ◌++◌, option_to_list, List, [], Bool, true, false, None, Some, IfNone, IfOk, OnOk};
ghost use Rattle.syntax_trees.specs.Following.{ExpectedNext, Operand, Side, AfterPrimary, OpenBracket, InBraces, at_entry, control_mapped, further_operand, operand_begun, now_expecting, bracket_popped, section_ends, name_begun, follow_atom, follow_plain, follow_text, follow_open, follow_braces, follow_close, follow_close_braces, follow_relation, follow_update, follow_connective, follow_colon, token_follows};
ghost use Rattle.syntax_places.specs.Controls.{Takes, changed, control_in, control_of, expected_of, brackets_of, next_in, within_of};

use opam_names::OutOfMemory;
use std::alloc::Global;
use syntax_trees::Token;

/// What may come next.
#[derive(Clone, Copy, Debug)]
pub(crate) enum Expected {
    /// A name, or the end of the file or of the section.
    Entry,
    AfterName,
    AfterLabel,
    Operand,
    /// A value, or the end of its bracket.
    Inside,
    /// The right side of a relation.
    Side,
    /// What goes on with a primary, or with one and its braces; it is a right side, or it is none.
    AfterPrimary(bool),
    AfterBraces(bool),
}

#[derive(Clone, Copy, Debug)]
pub(crate) enum Within {
    List,
    Group,
    Braces,
}

/// A bracket that is open, and what stands round it: a right side or none, and whether its value has an update already.
#[derive(Clone, Copy, Debug)]
pub(crate) struct Bracket {
    within: Within,
    right: bool,
    updated: bool,
}

/// All that decides whether a token may follow.
#[derive(Clone, Copy, Debug)]
struct Context {
    expected: Expected,
    updated: bool,
    section: bool,
    inner: Option<Bracket>,
}

/// What becomes of the open brackets.
#[derive(Clone, Copy, Debug)]
enum Change {
    Same,
    Opened(Bracket),
    Closed,
    Cleared,
}

/// The context after a token, but for the innermost bracket.
#[derive(Clone, Copy, Debug)]
struct Next {
    expected: Expected,
    updated: bool,
    section: bool,
    change: Change,
}

impl Context {
    fn follow(self, token: &Token) -> Option<Next>
        ensures { (others : List OpenBracket)
            → token_follows (control_in self others) token.now ≡ next_in self others result }
    {
        match token {
            Token::Flag(_) | Token::Int(_) | Token::Scoped(_, _) => self.atom(),
            Token::Text(_) => self.text(),
            Token::Plain(_) => self.plain(),
            Token::Colon => self.colon(),
            Token::OpenList => self.open(Within::List),
            Token::OpenGroup => self.open(Within::Group),
            Token::OpenBraces => self.open_braces(),
            Token::CloseList => self.close(Within::List),
            Token::CloseGroup => self.close(Within::Group),
            Token::CloseBraces => self.close_braces(),
            Token::Relation(_) => self.relation(),
            Token::Update(_) => self.update(),
            Token::And | Token::Or => self.connective(),
            Token::Not | Token::Defined => self.operand(Expected::Operand),
        }
    }

    fn stay(self, expected: Expected) -> Option<Next>
        ensures { (others : List OpenBracket)
            → Some (now_expecting (expected_of expected) (control_in self others)) ≡ next_in self others result }
    {
        Some(Next {
            expected,
            updated: self.updated,
            section: self.section,
            change: Change::Same,
        })
    }

    // A further value of a bracket.
    fn further(self, expected: Expected) -> Option<Next>
        ensures { (others : List OpenBracket)
            → let c = control_in self others in
            control_mapped (now_expecting (expected_of expected)) (further_operand c.frames c) ≡ next_in self others result }
    {
        match self.inner {
            None => None,
            Some(_) => Some(Next {
                expected,
                updated: false,
                section: self.section,
                change: Change::Same,
            }),
        }
    }

    fn operand(self, expected: Expected) -> Option<Next>
        ensures { (others : List OpenBracket)
            → control_mapped (now_expecting (expected_of expected))
            (operand_begun (expected_of self.expected) (control_in self others)) ≡ next_in self others result }
    {
        match self.expected {
            Expected::Operand => self.stay(expected),
            Expected::Inside | Expected::AfterPrimary(_) | Expected::AfterBraces(_) => {
                self.further(expected)
            }
            Expected::Entry | Expected::AfterName | Expected::AfterLabel | Expected::Side => None,
        }
    }

    fn atom(self) -> Option<Next>
        ensures { (others : List OpenBracket)
            → follow_atom (expected_of self.expected) (control_in self others) ≡ next_in self others result }
    {
        match self.expected {
            Expected::Side => self.stay(Expected::AfterPrimary(true)),
            _ => self.operand(Expected::AfterPrimary(false)),
        }
    }

    fn text(self) -> Option<Next>
        ensures { (others : List OpenBracket)
            → follow_text (expected_of self.expected) (control_in self others) ≡ next_in self others result }
    {
        match self.expected {
            Expected::AfterName => self.label(),
            _ => self.atom(),
        }
    }

    fn label(self) -> Option<Next>
        requires { expected_of self.expected ≡ expected_of Expected.AfterName }
        ensures { (others : List OpenBracket)
            → follow_text (expected_of self.expected) (control_in self others) ≡ next_in self others result }
    {
        if self.section {
            return None;
        }
        Some(Next {
            expected: Expected::AfterLabel,
            updated: false,
            section: false,
            change: Change::Cleared,
        })
    }

    fn name(self) -> Option<Next>
        ensures { (others : List OpenBracket)
            → name_begun [] (control_in self others) ≡ next_in self others result }
    {
        Some(Next {
            expected: Expected::AfterName,
            updated: false,
            section: self.section,
            change: Change::Cleared,
        })
    }

    // A name after a value, or a further value of a bracket.
    fn name_or_value(self) -> Option<Next>
        ensures { (others : List OpenBracket)
            → let c = control_in self others in name_begun c.frames c ≡ next_in self others result }
    {
        match self.inner {
            None => self.name(),
            Some(_) => Some(Next {
                expected: Expected::AfterPrimary(false),
                updated: false,
                section: self.section,
                change: Change::Same,
            }),
        }
    }

    fn plain(self) -> Option<Next>
        ensures { (others : List OpenBracket)
            → follow_plain (expected_of self.expected) (control_in self others) ≡ next_in self others result }
    {
        match self.expected {
            Expected::Side => self.stay(Expected::AfterPrimary(true)),
            Expected::Operand => self.stay(Expected::AfterPrimary(false)),
            Expected::Inside => self.further(Expected::AfterPrimary(false)),
            Expected::AfterPrimary(_) | Expected::AfterBraces(_) => self.name_or_value(),
            Expected::Entry => self.name(),
            Expected::AfterName | Expected::AfterLabel => None,
        }
    }

    fn opened(self, within: Within, right: bool, updated: bool) -> Option<Next>
        ensures { result ≡ Some (record {
          expected = Expected.Inside;
          updated = false;
          section = self.section;
          change = Change.Opened (record { within = within; right = right; updated = updated });
        }) }
    {
        let bracket = Bracket {
            within,
            right,
            updated,
        };
        Some(Next {
            expected: Expected::Inside,
            updated: false,
            section: self.section,
            change: Change::Opened(bracket),
        })
    }

    fn open(self, within: Within) -> Option<Next>
        ensures { (others : List OpenBracket)
            → follow_open (within_of within) (expected_of self.expected) (control_in self others) ≡ next_in self others result }
    {
        match self.expected {
            Expected::Side => self.opened(within, true, self.updated),
            Expected::Operand => self.opened(within, false, self.updated),
            Expected::Inside | Expected::AfterPrimary(_) | Expected::AfterBraces(_) => {
                match self.inner {
                    None => None,
                    Some(_) => self.opened(within, false, false),
                }
            }
            Expected::Entry | Expected::AfterName | Expected::AfterLabel => None,
        }
    }

    fn entry(section: bool) -> Option<Next>
        ensures { result ≡ Some (record { expected = Expected.Entry; updated = false; section = section; change = Change.Cleared }) }
    {
        Some(Next {
            expected: Expected::Entry,
            updated: false,
            section,
            change: Change::Cleared,
        })
    }

    fn open_braces(self) -> Option<Next>
        ensures { (others : List OpenBracket)
            → follow_braces (expected_of self.expected) (control_in self others) ≡ next_in self others result }
    {
        match self.expected {
            Expected::AfterPrimary(right) => self.opened(Within::Braces, right, self.updated),
            Expected::AfterName => {
                if self.section {
                    None
                } else {
                    Context::entry(true)
                }
            }
            Expected::AfterLabel => Context::entry(true),
            _ => None,
        }
    }

    fn popped(self, within: Within) -> Option<Next>
        ensures { (others : List OpenBracket)
            → let c = control_in self others in
            bracket_popped (within_of within) c.frames c.section ≡ next_in self others result }
    {
        match self.inner {
            None => None,
            Some(bracket) => self.popped_from(within, bracket),
        }
    }

    fn popped_from(self, within: Within, bracket: Bracket) -> Option<Next>
        requires { self.inner ≡ Some bracket }
        ensures { (others : List OpenBracket)
            → let c = control_in self others in
            bracket_popped (within_of within) c.frames c.section ≡ next_in self others result }
    {
        let expected = match (within, bracket.within) {
            (Within::List, Within::List) | (Within::Group, Within::Group) => {
                Expected::AfterPrimary(bracket.right)
            }
            (Within::Braces, Within::Braces) => Expected::AfterBraces(bracket.right),
            _ => return None,
        };
        Some(Next {
            expected,
            updated: bracket.updated,
            section: self.section,
            change: Change::Closed,
        })
    }

    fn close(self, within: Within) -> Option<Next>
        ensures { (others : List OpenBracket)
            → follow_close (within_of within) (expected_of self.expected) (control_in self others) ≡ next_in self others result }
    {
        match self.expected {
            Expected::Inside | Expected::AfterPrimary(_) | Expected::AfterBraces(_) => {
                self.popped(within)
            }
            _ => None,
        }
    }

    fn section_end(self) -> Option<Next>
        ensures { (others : List OpenBracket) → section_ends self.section ≡ next_in self others result }
    {
        if self.section {
            Context::entry(false)
        } else {
            None
        }
    }

    fn close_braces(self) -> Option<Next>
        ensures { (others : List OpenBracket)
            → follow_close_braces (expected_of self.expected) (control_in self others) ≡ next_in self others result }
    {
        match self.expected {
            Expected::Entry => self.section_end(),
            Expected::Inside => self.popped(Within::Braces),
            Expected::AfterPrimary(_) | Expected::AfterBraces(_) => match self.inner {
                None => self.section_end(),
                Some(_) => self.popped(Within::Braces),
            },
            _ => None,
        }
    }

    fn relation(self) -> Option<Next>
        ensures { (others : List OpenBracket)
            → follow_relation (expected_of self.expected) (control_in self others) ≡ next_in self others result }
    {
        match self.expected {
            Expected::Operand => self.stay(Expected::Side),
            Expected::Inside => self.further(Expected::Side),
            Expected::AfterPrimary(right) | Expected::AfterBraces(right) => {
                if right {
                    self.further(Expected::Side)
                } else {
                    self.stay(Expected::Side)
                }
            }
            _ => None,
        }
    }

    fn update(self) -> Option<Next>
        ensures { (others : List OpenBracket)
            → follow_update (expected_of self.expected) (control_in self others) ≡ next_in self others result }
    {
        match self.expected {
            Expected::AfterPrimary(_) | Expected::AfterBraces(_) => {
                if self.updated {
                    return None;
                }
                Some(Next {
                    expected: Expected::Operand,
                    updated: true,
                    section: self.section,
                    change: Change::Same,
                })
            }
            _ => None,
        }
    }

    fn connective(self) -> Option<Next>
        ensures { (others : List OpenBracket)
            → follow_connective (expected_of self.expected) (control_in self others) ≡ next_in self others result }
    {
        match self.expected {
            Expected::AfterPrimary(_) | Expected::AfterBraces(_) => self.stay(Expected::Operand),
            _ => None,
        }
    }

    fn colon(self) -> Option<Next>
        ensures { (others : List OpenBracket)
            → follow_colon (expected_of self.expected) (control_in self others) ≡ next_in self others result }
    {
        match self.expected {
            Expected::AfterName => Some(Next {
                expected: Expected::Operand,
                updated: false,
                section: self.section,
                change: Change::Cleared,
            }),
            _ => None,
        }
    }
}

/// What the tokens so far let follow.
#[derive(Drop)]
pub(crate) struct Control {
    expected: Expected,
    updated: bool,
    section: bool,
    // The innermost is the last.
    brackets: Vec<Bracket>,
}

impl Control {
    /// Before the first token.
    pub fn new(alloc: Global) -> Control
        ensures { control_of result ≡ at_entry false }
    {
        Control {
            expected: Expected::Entry,
            updated: false,
            section: false,
            brackets: Vec::new(alloc),
        }
    }

    /// Whether the token may follow. It is taken if so; else the state is lost.
    pub fn take(&mut self, token: &Token) -> Result<bool, OutOfMemory>
        ensures { IfOk result (Takes (token_follows (control_of self.old) token.now) (control_of self.new)) }
    {
        let inner = self.brackets.pop();
        let context = Context {
            expected: self.expected,
            updated: self.updated,
            section: self.section,
            inner,
        };
        match context.follow(token) {
            None => Ok(false),
            Some(next) => {
                self.put(inner, next)?;
                Ok(true)
            }
        }
    }

    // The innermost bracket was taken off.
    fn put(&mut self, inner: Option<Bracket>, next: Next) -> Result<(), OutOfMemory>
        requires { IfNone inner (self.old.brackets.items ≡ []) }
        ensures { OnOk result (control_of self.new ≡ record {
          expected = expected_of next.expected;
          updated = next.updated;
          frames = changed next.change inner (brackets_of self.old.brackets.items);
          section = next.section;
        }) }
    {
        self.expected = next.expected;
        self.updated = next.updated;
        self.section = next.section;
        match next.change {
            Change::Same => put_back(&mut self.brackets, inner)?,
            Change::Opened(bracket) => {
                put_back(&mut self.brackets, inner)?;
                self.brackets.push(bracket)?;
            }
            Change::Closed => {}
            Change::Cleared => self.brackets.clear(),
        }
        Ok(())
    }

    /// Becomes like the other.
    pub fn copy_from(&mut self, other: &Control) -> Result<(), OutOfMemory>
        ensures { OnOk result (control_of self.new ≡ control_of other.now) }
    {
        self.expected = other.expected;
        self.updated = other.updated;
        self.section = other.section;
        self.brackets.clear();
        self.brackets.extend_from_slice(&other.brackets)?;
        Ok(())
    }
}

fn put_back(brackets: &mut Vec<Bracket>, inner: Option<Bracket>) -> Result<(), OutOfMemory>
    ensures { OnOk result (brackets.new.items ≡ brackets.old.items ++ option_to_list inner) }
{
    if let Some(bracket) = inner {
        brackets.push(bracket)?;
    }
    Ok(())
}

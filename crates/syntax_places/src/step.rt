// One token more (opam manual, file format: grammar; the limit on nesting is this project's own).
ghost use Rattle.std.specs.Prelude.{◌≡◌, IfOk};
ghost use Rattle.syntax_places.specs.Followed.{at_start};
ghost use Rattle.syntax_places.specs.Steps.{IsTaken};

use crate::control::Control;
use crate::follower::Follower;
use crate::heights::Heights;
use opam_names::OutOfMemory;
use std::alloc::Global;
use syntax_trees::{NESTING_LIMIT, Token};

/// What comes of one token more.
#[derive(Drop)]
pub enum Taken {
    /// It follows.
    Follows(Follower),
    /// It may not follow.
    Refused,
    /// It may, but it opens a bracket, or is a prefix operator, inside of 64 others.
    Deep,
}

impl Follower {
    /// Before the first token.
    pub fn new(alloc: Global) -> Follower
        ensures { result ≡ at_start }
    {
        Follower {
            control: Control::new(alloc),
            heights: Heights::new(alloc),
        }
    }

    /// Takes one token more.
    pub fn take(self, token: &Token) -> Result<Taken, OutOfMemory>
        ensures { IfOk result (IsTaken self token.now) }
    {
        let Follower {
            mut control,
            mut heights,
        } = self;
        if !control.take(token)? {
            return Ok(Taken::Refused);
        }
        match heights.opening(token) {
            None => {}
            Some(height) => {
                if height >= NESTING_LIMIT {
                    return Ok(Taken::Deep);
                }
            }
        }
        heights.take(token)?;
        Ok(Taken::Follows(Follower { control, heights }))
    }
}

// The tokens of a file, one after another: which may follow, and how deep it nests (opam manual, file format: grammar).
use crate::control::Control;
use crate::heights::Heights;
use std::marker::Model;

/// What the tokens so far let follow, and how deep they nest.
#[derive(Drop)]
pub struct Follower {
    pub(crate) control: Control,
    pub(crate) heights: Heights,
}

impl Model for Follower {
    ghost use Rattle.syntax_places.specs.Controls.{control_of};
    ghost use Rattle.syntax_places.specs.Followed.{Followed};
    ghost use Rattle.syntax_places.specs.HeightsSeen.{heights_of};

    ghost Value = { Followed };

    ghost view = { λ follower. record {
      control = control_of follower.control;
      height = heights_of follower.heights;
    } };
}

// What the program hands in of the machine.
use opam_names::{Items, Text};

/// The value of a variable.
#[derive(Drop)]
pub enum VarValue {
    Flag(bool),
    Text(Text),
}

/// What is known of the machine and of the switch: the folder of the switch, the global variables, and the environment
/// of every child. A later pair of one name replaces an earlier one. No text has a zero byte.
#[derive(Drop)]
pub struct Facts {
    pub prefix: Text,
    pub globals: Items<(Text, VarValue)>,
    pub env: Items<(Text, Text)>,
}

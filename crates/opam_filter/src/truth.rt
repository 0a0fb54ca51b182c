// What variables and filters may be.
ghost use Rattle.std.specs.Prelude.{◌≡◌, IfOk};

use opam_names::{OutOfMemory, Text};
use std::alloc::Global;

/// The value of a variable.
#[derive(Drop)]
pub enum VarValue {
    Flag(bool),
    Text(Text),
}

impl VarValue {
    pub fn copy(&self, alloc: Global) -> Result<VarValue, OutOfMemory>
        ensures { IfOk result (λ copy. copy ≡ self.now) }
    {
        match self {
            VarValue::Flag(flag) => Ok(VarValue::Flag(*flag)),
            VarValue::Text(text) => Ok(VarValue::Text(text.copy(alloc)?)),
        }
    }
}

/// A truth of three values.
#[derive(Clone, Copy, Debug, PartialEq, Eq)]
pub enum Truth {
    Yes,
    No,
    Undefined,
}

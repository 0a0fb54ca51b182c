// What is known of the machine and of the switch, and of the packages that a build can see.
ghost use Rattle.std.specs.Prelude.{◌≡◌, IfOk};

use opam_filter::VarValue;
use opam_names::{Items, OutOfMemory, Pkg, Text};
use std::alloc::Global;

/// What is known of the machine and of the switch: the folder of the switch, the global variables, and the environment
/// of every child. Of several pairs with one name the last one counts. No text has a zero byte.
#[derive(Drop)]
pub struct Facts {
    pub prefix: Text,
    pub globals: Items<(Text, VarValue)>,
    pub env: Items<(Text, Text)>,
}

/// The packages that a build can see, all of them installed, in the byte order of their names.
#[derive(Drop)]
pub struct View {
    pub members: Items<Pkg>,
}

impl Facts {
    /// The same facts, in memory of their own.
    pub fn copy(&self, alloc: Global) -> Result<Facts, OutOfMemory>
        ensures { IfOk result (λ facts. facts ≡ self.now) }
    {
        Ok(Facts {
            prefix: self.prefix.copy(alloc)?,
            globals: copy_globals(alloc, self.globals.as_slice())?,
            env: copy_env(alloc, self.env.as_slice())?,
        })
    }
}

fn copy_globals(
    alloc: Global,
    globals: &[(Text, VarValue)],
) -> Result<Items<(Text, VarValue)>, OutOfMemory>
    ensures { IfOk result (λ copies. copies ≡ globals.now) }
{
    let mut copies = Items::new(alloc);
    for (name, value) in globals {
        copies.push((name.copy(alloc)?, value.copy(alloc)?))?;
    }
    Ok(copies)
}

fn copy_env(alloc: Global, env: &[(Text, Text)]) -> Result<Items<(Text, Text)>, OutOfMemory>
    ensures { IfOk result (λ copies. copies ≡ env.now) }
{
    let mut copies = Items::new(alloc);
    for (name, value) in env {
        copies.push((name.copy(alloc)?, value.copy(alloc)?))?;
    }
    Ok(copies)
}

// What the program learns of its surroundings before its run.
ghost use Rattle.std.specs.Prelude.{◌≡◌, List, ℕ, IfOk, codes, string_bytes};
ghost use Rattle.opam_names.specs.Paths.{joined};
ghost use Rattle.opam_main.specs.Start.{start_number};

use opam_names::{Items, OutOfMemory, Text};
use opam_top::{Facts, VarValue};
use std::alloc::{AllocError, AllocFailed, Global};
use std::env::{Env, VarError};
use std::io::ErrorKind;
use std::{env, io};
use thiserror::Error;

/// Why a run did not begin.
#[derive(Debug, Drop, Error)]
pub enum StartError {
    #[error("the standard streams cannot be opened: {0}")]
    Streams(io::Error),
    #[error("the arguments cannot be read: {0}")]
    Arguments(io::Error),
    #[error("the variable {0} is no UTF-8 text")]
    Variable(&'static str),
    #[error("the working folder cannot be found: {0}")]
    Folder(io::Error),
    #[error("out of memory")]
    Memory,
}

impl From<AllocError> for StartError {
    fn from(_: AllocError) -> Self
        ensures { result ≡ StartError.Memory }
    {
        StartError::Memory
    }
}

impl<T: Drop> From<AllocFailed<T>> for StartError {
    fn from(_: AllocFailed<T>) -> Self
        ensures { result ≡ StartError.Memory }
    {
        StartError::Memory
    }
}

impl From<OutOfMemory> for StartError {
    fn from(_: OutOfMemory) -> Self
        ensures { result ≡ StartError.Memory }
    {
        StartError::Memory
    }
}

impl StartError {
    /// The number that the program ends with.
    pub fn number(&self) -> u8
        ensures { result ≡ start_number self.now }
    {
        match self {
            StartError::Arguments(_) | StartError::Variable(_) => 2,
            StartError::Streams(_) | StartError::Folder(_) => 40,
            StartError::Memory => 98,
        }
    }
}

/// The words of the command line, without the program's name.
pub fn arguments<R: Env + AllocGlobal>(rt: &R, alloc: Global) -> Result<Vec<String>, StartError> {
    let all = match env::args(rt) {
        Ok(all) => all,
        Err(error) => {
            if error.kind() == ErrorKind::OutOfMemory {
                return Err(StartError::Memory);
            }
            return Err(StartError::Arguments(error));
        }
    };
    let mut words = Vec::new(alloc);
    for (at, word) in all.enumerate() {
        if at > 0 {
            words.push(word)?;
        }
    }
    Ok(words)
}

/// The folder of the switch, `_opam` in the working folder.
pub fn switch_folder<R: Env + AllocGlobal>(rt: &R, alloc: Global) -> Result<String, StartError>
    ensures { IfOk result (λ path. (folder : List ℕ) × (string_bytes path ≡ joined folder (codes "_opam"))) }
{
    match env::current_dir(rt) {
        Ok(folder) => {
            let mut path = String::from_str(alloc, folder.as_str())?;
            path.push_str("/_opam")?;
            Ok(path)
        }
        Err(error) => {
            if error.kind() == ErrorKind::OutOfMemory {
                return Err(StartError::Memory);
            }
            Err(StartError::Folder(error))
        }
    }
}

const VARIABLES: [&str; 5] = ["HOME", "LANG", "PATH", "TMPDIR", "USER"];

/// The variables of this process's environment that its children get, where they are set.
fn environment<R: Env + AllocGlobal>(
    rt: &R,
    alloc: Global,
) -> Result<Items<(Text, Text)>, StartError> {
    let mut found = Items::new(alloc);
    for name in VARIABLES {
        match env::var(rt, name) {
            Ok(value) => found.push((Text::from_str(alloc, name)?, Text::from_string(value)))?,
            Err(VarError::NotPresent) => {}
            Err(VarError::NotUnicode) => return Err(StartError::Variable(name)),
            Err(VarError::OutOfMemory) => return Err(StartError::Memory),
        }
    }
    Ok(found)
}

// The variables that formulas, filters and builds see of this machine.
const GLOBALS: [(&str, &str); 5] = [
    ("arch", "x86_64"),
    ("os", "linux"),
    ("jobs", "1"),
    ("make", "make"),
    ("opam-version", "2.1.0"),
];

const FLAGS: [&str; 4] = ["with-test", "with-doc", "with-dev-setup", "dev"];

fn globals(alloc: Global) -> Result<Items<(Text, VarValue)>, StartError> {
    let mut found = Items::new(alloc);
    for (name, value) in GLOBALS {
        let value = VarValue::Text(Text::from_str(alloc, value)?);
        found.push((Text::from_str(alloc, name)?, value))?;
    }
    for name in FLAGS {
        found.push((Text::from_str(alloc, name)?, VarValue::Flag(false)))?;
    }
    Ok(found)
}

/// What the run is told of this machine, and of the switch in the folder `prefix`.
pub fn facts<R: Env + AllocGlobal>(rt: &R, alloc: Global, prefix: &str) -> Result<Facts, StartError>
    ensures { IfOk result (λ facts. facts.prefix ≡ prefix.now) }
{
    Ok(Facts {
        prefix: Text::from_str(alloc, prefix)?,
        globals: globals(alloc)?,
        env: environment(rt, alloc)?,
    })
}

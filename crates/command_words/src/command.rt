// What a command line asks for.
use opam_names::{Items, Name, Pkg, Text};

/// What a command line asks for: a change of the switch, or a question.
#[derive(Drop)]
pub enum Command {
    Change(Change),
    Query(Query),
}

/// A change of the switch. `jobs` is how many children run at a time, 1 to 64; names are in the order of bytes, each once.
#[derive(Drop)]
pub enum Change {
    /// Install what a lock file binds, from the repository in the folder `repo`.
    Install {
        lock_file: Text,
        repo: Text,
        jobs: u32,
        names: Items<Name>,
    },
    Remove {
        jobs: u32,
        names: Items<Name>,
    },
    Reinstall {
        jobs: u32,
        names: Items<Name>,
    },
}

/// A question, which changes no package.
#[derive(Drop)]
pub enum Query {
    /// What is installed.
    List,
    /// One package, of the switch or of the repository in the folder `repo`.
    Show { repo: Text, what: Shown },
    /// What is wrong with an opam file.
    Lint { file: Text },
}

/// What is to be shown: whatever version of a name is installed, or one package.
#[derive(Drop)]
pub enum Shown {
    Name(Name),
    Exact(Pkg),
}

// What an opam file says of a package.
use opam_filter::{Filter, Reduced};
use opam_names::{Items, Name, Pkg, RelPath, Text};
use syntax_trees::{EnvOp, Var};

/// A package as its opam file has it (opam manual, file format: opam). Formulas are reduced, and `available` is answered,
/// by the variables of the whole run and the package's own `name` and `version`.
#[derive(Drop)]
pub struct Package {
    pub pkg: Pkg,
    /// What it depends on, one for each value of `depends`.
    pub items: Items<Need>,
    /// The atoms of `depopts`, each alone, as where it is built.
    pub depopts: Items<Reduced>,
    /// The atoms of `conflicts`, each alone, with `build` and `post` true.
    pub conflicts: Items<Reduced>,
    /// The texts of `conflict-class`.
    pub classes: Items<Text>,
    pub available: bool,
    /// The names of fields and sections for which a package is refused, in the order of the file, each once.
    pub refused: Items<Text>,
    /// The commands of `build`, at most [`crate::COMMAND_LIMIT`].
    pub commands: Items<Command>,
    /// The updates of `setenv`, for those who need it.
    pub exports: Items<EnvUpdate>,
    /// The updates of `build-env`, for its own commands.
    pub build_env: Items<EnvUpdate>,
    /// The paths of `substs`, without their `.in`.
    pub substs: Items<RelPath>,
    /// The absolute path of its sources.
    pub source: Option<Text>,
    pub synopsis: Option<Text>,
}

/// A value of `depends`, by what it is needed for.
#[derive(Drop)]
pub struct Need {
    /// With `build` and `post` false.
    pub runtime: Reduced,
    /// With `build` true and `post` false.
    pub building: Reduced,
    /// With both true.
    pub full: Reduced,
}

/// A command with its filter.
#[derive(Drop)]
pub struct Command {
    pub args: Items<Arg>,
    pub filter: Option<Filter>,
}

/// An argument of a command with its filter.
#[derive(Drop)]
pub struct Arg {
    pub word: Word,
    pub filter: Option<Filter>,
}

/// What an argument is: a text, which may have variables in it, or a variable.
#[derive(Drop)]
pub enum Word {
    Text(Text),
    Var(Var),
}

/// An update of a variable of the environment. The sign `=` is `Set`.
#[derive(Drop)]
pub struct EnvUpdate {
    pub name: Text,
    pub op: EnvOp,
    pub value: Text,
}

/// A package with the text of its opam file.
#[derive(Drop)]
pub struct Member {
    pub package: Package,
    pub opam: Items<u8>,
}

/// What a switch is to become. Members stand in the order of the bytes of their names, each name once.
#[derive(Drop)]
pub struct Target {
    pub members: Items<Member>,
    /// The names of installed packages that are built once more.
    pub redo: Items<Name>,
    /// The names of members whose text came from the repository.
    pub fresh: Items<Name>,
    /// The names that are asked for, and not only needed by others.
    pub roots: Items<Name>,
}

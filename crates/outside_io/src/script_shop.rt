// A workshop that follows scripts.
ghost use Rattle.std.specs.Prelude.{◌≡◌, Some, IsTrue, IfOk, IsOk, OnErr};
ghost use Rattle.std.specs.Option.{option_copied};
ghost use Rattle.std.specs.Ordering.{nat_cmp};
ghost use Rattle.std.specs.Cmp.Lexicographic.{slice_cmp};
ghost use Rattle.std.specs.FinMap.{find, get};
ghost use Rattle.outside_io.specs.Shops.{IsEndingOf, IsSeen, ReadTells, StepTells};
ghost use Rattle.outside_io.specs.Scripts.{IsCopied, all_well, ending_at, ending_of, goes_on_well, is_same_pkg, is_well, starts_well, script_of, scripted_at, told_by};

use crate::{Ending, Job, Seen, Workshop};
use opam_names::{Items, OutOfMemory, Pkg, RelPath, Text};
use std::alloc::Global;
use std::cmp::Ordering;
use std::marker::Model;

/// What happens to the jobs of a package: the ending of each step, `Exit(0)` where one is missing, and the files of
/// its build folder, without bytes for one that cannot be read.
#[derive(Drop)]
pub struct Script {
    pub pkg: Pkg,
    pub endings: Items<Ending>,
    pub files: Items<(Text, Option<Items<u8>>)>,
}

/// It runs nothing, and answers what its scripts say. Of several scripts of a package the first counts, and of several
/// files with one path. A package without a script has good endings and no files.
#[derive(Drop)]
pub struct ScriptShop {
    scripts: Vec<Script>,
}

impl Script {
    /// Whether the first ending is `Exit(0)` or `NotPrepared`, and no later one is `NotPrepared`.
    pub fn is_well(&self) -> bool
        ensures { result ≡ is_well self.now.endings }
    {
        match self.endings.as_slice() {
            [] => true,
            [first, later @ ..] => starts_well(*first) && goes_on_well(later),
        }
    }
}

impl Model for ScriptShop {
    ghost use Rattle.std.specs.Prelude.{List, IsTrue};
    ghost use Rattle.outside_io.specs.declared.script_shop.Script.{Script};
    ghost use Rattle.outside_io.specs.Scripts.{all_well};

    ghost Value = { List Script };

    ghost view = { λ s. s.scripts.items };

    ghost invariant = { λ s. IsTrue (all_well s.scripts.items) };
}

impl ScriptShop {
    /// In each script the first ending is `Exit(0)` or `NotPrepared`, and no later one is `NotPrepared`.
    pub fn new(scripts: Vec<Script>) -> ScriptShop
        requires { IsTrue (all_well scripts.items) }
        ensures told { ⟦<ScriptShop as Workshop>⟧.told result ≡ Some (told_by scripts.items) }
        ensures scripts { result ≡ scripts.items }
    {
        ScriptShop { scripts }
    }
}

impl Workshop for ScriptShop {
    ghost use Rattle.outside_io.specs.Scripts.{told_by};

    ghost told = { λ s. Some (told_by s) };

    /// It takes no memory.
    fn build_step(&self, _alloc: Global, job: &Job, step: u32) -> Result<Ending, OutOfMemory>
        ensures kind { IfOk result (λ ending. IsEndingOf step ending) }
        ensures told { StepTells (Some (told_by self.now)) job.now step result }
        ensures sure { IsOk result }
    {
        Ok(scripted_ending(&self.scripts, &job.pkg, step))
    }

    /// It takes memory only where it answers bytes.
    fn read(
        &self,
        alloc: Global,
        job: &Job,
        path: &RelPath,
        limit: u64,
    ) -> Result<Seen, OutOfMemory>
        ensures told { ReadTells (Some (told_by self.now)) job.now path.now limit result }
        ensures copied { OnErr result (IsCopied (get ((told_by self.now).files job.now) path.now) limit) }
    {
        match find_script(&self.scripts, &job.pkg) {
            None => Ok(Seen::Absent),
            Some(script) => read_scripted(alloc, script.files.as_slice(), path.as_str(), limit),
        }
    }
}

fn starts_well(ending: Ending) -> bool
    ensures { result ≡ starts_well ending }
{
    match ending {
        Ending::Exit(code) => code == 0,
        Ending::NotPrepared => true,
        Ending::Killed | Ending::NotStarted => false,
    }
}

fn goes_on_well(endings: &[Ending]) -> bool
    ensures { result ≡ goes_on_well endings.now }
{
    let mut rest = endings;
    while let [ending, after @ ..] = rest {
        if matches!(ending, Ending::NotPrepared) {
            return false;
        }
        rest = after;
    }
    true
}

fn scripted_ending(scripts: &[Script], pkg: &Pkg, step: u32) -> Ending
    ensures { result ≡ ending_of (script_of scripts.now pkg.now) step }
{
    match find_script(scripts, pkg) {
        None => Ending::Exit(0),
        Some(script) => ending_of(script.endings.as_slice(), step as usize),
    }
}

fn ending_of(endings: &[Ending], step: usize) -> Ending
    ensures { result ≡ ending_at endings.now step }
{
    match endings.get(step) {
        Some(ending) => *ending,
        None => Ending::Exit(0),
    }
}

fn find_script<'a>(scripts: &'a [Script], pkg: &Pkg) -> Option<&'a Script>
    ensures { option_copied result ≡ script_of scripts.now pkg.now }
{
    let mut rest = scripts;
    while let [script, after @ ..] = rest {
        if same_pkg(pkg, &script.pkg) {
            return Some(script);
        }
        rest = after;
    }
    None
}

fn same_pkg(a: &Pkg, b: &Pkg) -> bool
    ensures { result ≡ is_same_pkg a.now b.now }
{
    a.name.as_str() == b.name.as_str() && a.version.as_str() == b.version.as_str()
}

fn read_scripted(
    alloc: Global,
    files: &[(Text, Option<Items<u8>>)],
    path: &str,
    limit: u64,
) -> Result<Seen, OutOfMemory>
    ensures seen { IfOk result (λ seen. IsSeen (get (scripted_at files.now) path.now) limit seen) }
    ensures copied { OnErr result (IsCopied (get (scripted_at files.now) path.now) limit) }
{
    match find_scripted(files, path) {
        None => Ok(Seen::Absent),
        Some(None) => Ok(Seen::Unreadable),
        Some(Some(bytes)) => {
            if bytes.len() as u64 > limit {
                return Ok(Seen::TooLong);
            }
            Ok(Seen::Bytes(Items::from_slice(alloc, bytes.as_slice())?))
        }
    }
}

#[tactic(auto, using(crate::proofs::Tells::get_scripted))]
fn find_scripted<'a>(
    files: &'a [(Text, Option<Items<u8>>)],
    path: &str,
) -> Option<&'a Option<Items<u8>>>
    ensures { option_copied result ≡ get (scripted_at files.now) path.now }
{
    find_in(files, path)
}

fn find_in<'a>(files: &'a [(Text, Option<Items<u8>>)], path: &str) -> Option<&'a Option<Items<u8>>>
    ensures { option_copied result ≡ find (slice_cmp nat_cmp) path.now files.now }
{
    let mut rest = files;
    while let [(name, file), after @ ..] = rest {
        if path.cmp(name.as_str()) == Ordering::Equal {
            return Some(file);
        }
        rest = after;
    }
    None
}

// An `install` over the shelf: which packages are read, one after another, and how many names there are when each comes.
ghost use Rattle.std.specs.Prelude.{◌≡◌, bytes_eq, map, IfOk};
ghost use Rattle.std.specs.List.{IsDistinct};
ghost use Rattle.std.specs.declared.option.Option.TheVariants.{Some};
ghost use Rattle.opam_filter.specs.Sets.{Rises};
ghost use Rattle.lock_check.specs.Chased.{IsAnswer, held_by_name};
ghost use Rattle.lock_check.specs.Targets.{member_name};

use crate::changes::push_change;
use crate::shelf::{installed_in, names_in, on_shelf, pkgs_in};
use crate::shows::push_pkg;
use lock_check::{Answer, Chase, Lock, Violation};
use opam_filter::rises;
use opam_names::{Items, Name, Pkg};
use opam_package::{Member, Target};
use row_script::fault::Fault;
use row_script::lexer::Word;
use std::alloc::Global;

/// What is read, and then what the change comes to.
pub fn install(
    alloc: Global,
    shelf: &[Member],
    installed: &Word,
    lock: &Word,
    asked: &Word,
    roots: &Word,
) -> Result<String, Fault> {
    let installed = installed_in(alloc, shelf, installed)?;
    let lock = lock_in(alloc, lock)?;
    let roots = names_in(alloc, roots)?;
    let mut text = String::from_str(alloc, "reads ")?;
    let (target, told) = chase(
        alloc,
        shelf,
        installed.as_slice(),
        &lock,
        names_in(alloc, asked)?.as_slice(),
        roots.as_slice(),
        &mut text,
    )?;
    push_change(
        alloc,
        &mut text,
        installed.as_slice(),
        &target,
        told.as_slice(),
    )?;
    Ok(text)
}

/// How many names are installed or needed before anything is read.
pub fn count(
    alloc: Global,
    shelf: &[Member],
    installed: &Word,
    lock: &Word,
    asked: &Word,
) -> Result<String, Fault> {
    let installed = installed_in(alloc, shelf, installed)?;
    let lock = lock_in(alloc, lock)?;
    let asked = names_in(alloc, asked)?;
    let count = Chase::begin(alloc, installed.as_slice(), &lock, asked.as_slice())?.count();
    Ok(format!(in alloc; "{count}")?)
}

fn lock_in(alloc: Global, word: &Word) -> Result<Lock, Fault>
    ensures { IfOk result (λ lock. Rises lock.bound) }
{
    let bound = pkgs_in(alloc, word)?;
    if rises(bound.as_slice()) {
        Ok(Lock { bound })
    } else {
        Err(Fault::Line("the packages of a lock are not in order"))
    }
}

// What the shelf says of a package.
fn answer_on(alloc: Global, shelf: &[Member], pkg: &Pkg) -> Result<Answer, Fault>
    ensures { IfOk result (IsAnswer (Some pkg.now)) }
{
    match on_shelf(shelf, pkg) {
        None => Ok(Answer::Unknown),
        Some(member) => known(member.copy(alloc)?, pkg),
    }
}

fn known(member: Member, pkg: &Pkg) -> Result<Answer, Fault>
    ensures { IfOk result (IsAnswer (Some pkg.now)) }
{
    if member.package.pkg == *pkg {
        Ok(Answer::Known(member))
    } else {
        Err(Fault::Line("the shelf has another package"))
    }
}

// Reads the next package, where there is one.
fn read_next(
    alloc: Global,
    shelf: &[Member],
    chase: &mut Chase,
    text: &mut String,
) -> Result<(), Fault>
    ensures { chase.new.installed ≡ chase.old.installed }
{
    let answer = match chase.next() {
        None => return Ok(()),
        Some(pkg) => {
            push_read(text, pkg, chase.count())?;
            answer_on(alloc, shelf, pkg)?
        }
    };
    Ok(chase.give(alloc, answer)?)
}

fn push_read(text: &mut String, pkg: &Pkg, count: u32) -> Result<(), Fault> {
    push_pkg(text, pkg)?;
    Ok(write!(text, " of {count}, ")?)
}

fn chase(
    alloc: Global,
    shelf: &[Member],
    installed: &[Member],
    lock: &Lock,
    asked: &[Name],
    roots: &[Name],
    text: &mut String,
) -> Result<(Target, Items<Violation>), Fault>
    requires differ { IsDistinct bytes_eq (map member_name installed.now) }
    requires lock { Rises lock.now.bound }
{
    let mut chase = Chase::begin(alloc, installed, lock, asked)?;
    for _i in 0..lock.bound.len() {
        read_next(alloc, shelf, &mut chase, text)?;
    }
    let count = chase.count();
    write!(text, "{count} names")?;
    finish(alloc, chase, installed, roots)
}

fn finish(
    alloc: Global,
    chase: Chase,
    installed: &[Member],
    roots: &[Name],
) -> Result<(Target, Items<Violation>), Fault>
    requires differ { IsDistinct bytes_eq (map member_name installed.now) }
    requires installed { chase.installed ≡ held_by_name installed.now }
{
    if chase.next().is_some() {
        return Err(Fault::Line("more is to be read than is bound"));
    }
    Ok(chase.finish(alloc, installed, roots)?)
}

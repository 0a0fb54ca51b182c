// Which files the build of a package brings: those that its install file names (opam manual, package definitions: `.install`
// files).
ghost use Rattle.std.specs.Prelude.{◌≡◌, ◌≢◌, ◌≤◌, ◌++◌, ℕ, List, false, IfOk, OnOk, codes, length, map, string_bytes};
ghost use Rattle.std.specs.FinMap.{get};
ghost use Rattle.std.specs.List.{list_any};
ghost use Rattle.std.specs.declared.option.Option.{Option};
ghost use Rattle.std.specs.declared.option.Option.TheVariants.{None, Some};
ghost use Rattle.install_sections.specs.declared.fault.InstallFault.TheVariants.{Memory};
ghost use Rattle.install_sections.specs.declared.limits.TheConstants.{ITEM_LIMIT};
ghost use Rattle.journal_text.specs.Parts.{is_own};
ghost use Rattle.outside_io.specs.Shops.{IsSeen, Told};
ghost use Rattle.change_verdict.specs.Sources.{AreSourcesOf, IsBroughtBy, IsBroughtByText, destination, files_of, install_path, source_at};
ghost use Rattle.change_verdict.specs.Fitting.{IsOfSource};
ghost use Rattle.change_verdict.specs.Verdicts.{IfFound};
ghost use Rattle.change_verdict.specs.declared.reason.Reason.TheVariants.{InstallRefused};
ghost use Rattle.change_verdict.specs.declared.verdict.Sources.TheVariants.{Refused};

use crate::limits::{FILES_LIMIT, INSTALL_LIMIT};
use crate::{Reason, Sources};
use install_sections::{
    InstallFault, Placement, files_are_limited, files_stay_below, read_install,
};
use journal_text::Placed;
use opam_names::{Items, Name, OutOfMemory, RelPath};
use outside_io::{Fate, Job, Seen, Workshop};
use std::alloc::Global;

/// What one source gives.
#[derive(Drop)]
pub(crate) enum Source {
    File(Placed),
    /// It is absent, and may be.
    Passed,
    Lacks(Reason),
}

/// The files that the build of the package brings whose job came to this fate, or why they cannot be had. The install file is
/// `NAME.install` in the build folder. A source is read with what is left of [`FILES_LIMIT`].
pub fn sources_of<W: Workshop>(
    alloc: Global,
    shop: &W,
    job: &Job,
    fate: Fate,
) -> Result<Sources, OutOfMemory>
    ensures told { (told : Told) → W.told shop.now ≡ Some told
        → IfOk result (AreSourcesOf (told.files job.now) job.now.pkg.name fate) }
    ensures found { IfOk result IfFound }
{
    match fate {
        Fate::Stopped { step, ending } => Ok(Sources::Refused(Reason::Step(step, ending))),
        Fate::Built => built_sources(alloc, shop, job),
    }
}

// By what stands under the name of the install file.
fn built_sources<W: Workshop>(alloc: Global, shop: &W, job: &Job) -> Result<Sources, OutOfMemory>
    ensures told { (told : Told) → W.told shop.now ≡ Some told
        → IfOk result (IsBroughtBy (told.files job.now) job.now.pkg.name
        (get (told.files job.now) (install_path job.now.pkg.name))) }
    ensures found { IfOk result IfFound }
{
    let path = install_path(alloc, &job.pkg.name)?;
    match shop.read(alloc, job, &path, INSTALL_LIMIT as u64)? {
        Seen::Absent => Ok(Sources::Found(Items::new(alloc))),
        Seen::Unreadable => Ok(Sources::Refused(Reason::InstallUnreadable)),
        Seen::TooLong => Ok(Sources::Refused(Reason::InstallTooLong)),
        Seen::Bytes(text) => seen_sources(alloc, shop, job, text.as_slice()),
    }
}

// By the text that was read. A workshop that tells nothing may hand out a longer one than was asked for.
fn seen_sources<W: Workshop>(
    alloc: Global,
    shop: &W,
    job: &Job,
    text: &[u8],
) -> Result<Sources, OutOfMemory>
    ensures told { (told : Told) → W.told shop.now ≡ Some told
        → IfOk result (IsBroughtBy (told.files job.now) job.now.pkg.name (Some (Some text.now))) }
    ensures found { IfOk result IfFound }
{
    if text.len() > INSTALL_LIMIT {
        return Ok(Sources::Refused(Reason::InstallTooLong));
    }
    text_sources(alloc, shop, job, text)
}

fn text_sources<W: Workshop>(
    alloc: Global,
    shop: &W,
    job: &Job,
    text: &[u8],
) -> Result<Sources, OutOfMemory>
    requires { length text.now ≤ INSTALL_LIMIT }
    ensures told { (told : Told) → W.told shop.now ≡ Some told
        → IfOk result (IsBroughtByText (told.files job.now) job.now.pkg.name text.now) }
    ensures found { IfOk result IfFound }
{
    files_are_limited();
    files_stay_below();
    match read_install(alloc, text, &job.pkg.name) {
        Ok(placements) => files_of(alloc, shop, job, placements.as_slice()),
        Err(fault) => refused_sources(fault),
    }
}

// Want of memory is no fault of the text.
fn refused_sources(fault: InstallFault) -> Result<Sources, OutOfMemory>
    ensures told { IfOk result (λ sources. sources ≡ Refused (InstallRefused fault)) }
    ensures fault { OnOk result (fault ≢ Memory) }
    ensures found { IfOk result IfFound }
{
    match fault {
        InstallFault::Memory => Err(OutOfMemory),
        fault => Ok(Sources::Refused(Reason::InstallRefused(fault))),
    }
}

// The files of placements, in their order.
fn files_of<W: Workshop>(
    alloc: Global,
    shop: &W,
    job: &Job,
    placements: &[Placement],
) -> Result<Sources, OutOfMemory>
    requires few { length placements.now ≤ ITEM_LIMIT }
    requires free { list_any is_own (map destination placements.now) ≡ false }
    ensures told { (told : Told) → W.told shop.now ≡ Some told
        → IfOk result (λ sources.
        sources ≡ files_of (told.files job.now) FILES_LIMIT placements.now) }
    ensures found { IfOk result IfFound }
{
    let mut files = Items::new(alloc);
    let mut room = FILES_LIMIT;
    for placement in placements {
        match source_of(alloc, shop, job, placement, room)? {
            Source::File(file) => {
                room -= file.bytes.len();
                files.push(file)?;
            }
            Source::Passed => {}
            Source::Lacks(reason) => return Ok(Sources::Refused(reason)),
        }
    }
    Ok(Sources::Found(files))
}

// What the source of a placement gives, where there is room for so many bytes.
fn source_of<W: Workshop>(
    alloc: Global,
    shop: &W,
    job: &Job,
    placement: &Placement,
    room: usize,
) -> Result<Source, OutOfMemory>
    ensures told { (told : Told) → W.told shop.now ≡ Some told → IfOk result (λ source.
        source ≡ source_at placement.now room (get (told.files job.now) placement.now.src)) }
    ensures kind { IfOk result (IsOfSource placement.now room) }
{
    let seen = shop.read(alloc, job, &placement.src, room as u64)?;
    source_seen(alloc, placement, seen, room)
}

// What it gives where this is seen of it.
fn source_seen(
    alloc: Global,
    placement: &Placement,
    seen: Seen,
    room: usize,
) -> Result<Source, OutOfMemory>
    ensures told { (stood : Option (Option (List ℕ))) → IsSeen stood room seen
        → IfOk result (λ source. source ≡ source_at placement.now room stood) }
    ensures kind { IfOk result (IsOfSource placement.now room) }
{
    match seen {
        Seen::Absent => absent_source(alloc, placement),
        Seen::Unreadable => Ok(Source::Lacks(Reason::Unreadable(placement.src.copy(alloc)?))),
        Seen::TooLong => Ok(Source::Lacks(Reason::FilesTooLong)),
        Seen::Bytes(bytes) => {
            if bytes.len() > room {
                return Ok(Source::Lacks(Reason::FilesTooLong));
            }
            Ok(Source::File(Placed {
                path: placement.dst.copy(alloc)?,
                exec: placement.exec,
                bytes,
            }))
        }
    }
}

fn absent_source(alloc: Global, placement: &Placement) -> Result<Source, OutOfMemory>
    ensures { IfOk result (λ source. source ≡ source_at placement.now 0 None) }
{
    if placement.optional {
        return Ok(Source::Passed);
    }
    Ok(Source::Lacks(Reason::Missing(placement.src.copy(alloc)?)))
}

// `NAME.install`.
fn install_path(alloc: Global, name: &Name) -> Result<RelPath, OutOfMemory>
    ensures { IfOk result (λ path. path ≡ install_path name.now) }
{
    let text = install_text(alloc, name.as_str())?;
    RelPath::fixed(alloc, text.as_str())
}

fn install_text(alloc: Global, name: &str) -> Result<String, OutOfMemory>
    ensures { IfOk result (λ text. string_bytes text ≡ name.now ++ codes ".install") }
{
    let mut text = String::from_str(alloc, name)?;
    text.push_str(".install")?;
    Ok(text)
}

// What an install of a package comes to: the files that it places, or why it fails.
#![tactic(auto, using(crate::proofs::Passed::time_steps))]

ghost use Rattle.std.specs.Prelude.{◌≡◌, ◌≢◌, ◌≤◌, ◌+◌, ◌++◌, ℕ, List, Some, Ok, Err, IfOk, IsTrue, codes, length, nat_le, not, string_bytes};
ghost use Rattle.std.specs.declared.option.Option.{Option};
ghost use Rattle.std.specs.FinMap.{get, len};
ghost use Rattle.std.specs.List.{list_all};
ghost use Rattle.outside_io.specs.Shops.{IsSeen, Told};
ghost use Rattle.crash_disk.specs.Disks.{State};
ghost use Rattle.opam_top.specs.Pasts.{Passes};
ghost use Rattle.opam_top.specs.Commits.{paths_differ};
ghost use Rattle.opam_top.specs.InstallTexts.{is_item, read_items};
ghost use Rattle.opam_top.specs.Installs.{files_of_items, if_free, if_room, install_limit, install_name, is_vacant, items_of, items_read, placed_by};
ghost use Rattle.opam_top.specs.Owners.{is_owned_in_bin, is_unowned, owners_of};
ghost use Rattle.opam_top.specs.Placements.{is_in_bin, most_paths};
ghost use Rattle.opam_top.specs.Records.{FilesFit};
ghost use Rattle.opam_top.specs.Refusals.{Causes};
ghost use Rattle.opam_top.specs.declared.stops.Refusal.{Refusal};

use crate::decision::Reason;
use crate::install_text;
use crate::placing::{first_in_the_way, sorted};
use crate::records::Placed;
use crate::sources::sources_of;
use crate::stops::Stop;
use crash_disk::Disk;
use opam_names::{Items, OutOfMemory, Pkg, RelPath};
use outside_io::{Fate, Job, Seen, Workshop};
use std::alloc::Global;

const MOST_PATHS: usize = 1048576;

// The files that a package whose job came to this places, in the order of their paths, or why it fails.
pub fn files_to_place<W: Workshop, D: Disk>(
    alloc: Global,
    shop: &W,
    disk: &mut D,
    owners: &[(RelPath, Pkg)],
    job: &Job,
    fate: Fate,
) -> Result<Result<Items<Placed>, Reason>, Stop>
    requires in_bin { IsTrue (list_all is_owned_in_bin owners.now) }
    requires count { len (owners_of owners.now) ≡ length owners.now }
    ensures cause { Causes Stop.Disk (D.faults disk.old) (D.faults disk.new) result }
    ensures host { result ≢ Err Stop.Host }
    ensures refusal { (refusal : Refusal) → result ≢ Err (Stop.Refused refusal) }
    ensures same { D.told disk.new ≡ D.told disk.old }
    ensures time { Passes (D.moment disk.old) (D.moment disk.new) (D.past disk.old) (D.past disk.new) }
    ensures fit { IfOk result (λ files. IfOk files FilesFit) }
    ensures paths { IfOk result (λ files. IfOk files (λ list. IsTrue (list_all is_in_bin list))) }
    ensures unowned { IfOk result (λ files. IfOk files (λ list. IsTrue (list_all (is_unowned (owners_of owners.now)) list))) }
    ensures apart { IfOk result (λ files. IfOk files (λ list. IsTrue (paths_differ list))) }
    ensures vacant { (s : State) → D.told disk.old ≡ Some s → IfOk result (λ files. IfOk files (λ list. IsTrue (list_all (is_vacant s.files) list))) }
    ensures told { (told : Told) (s : State) → W.told shop.now ≡ Some told → D.told disk.old ≡ Some s →
        IfOk result (λ files. files ≡ placed_by told s.files (owners_of owners.now) job.now fate) }
{
    match fate {
        Fate::Stopped { step, ending } => Ok(Err(Reason::Step(step, ending))),
        Fate::Built => match items_to_place(alloc, shop, job)? {
            Ok(items) => files_of_install(alloc, shop, disk, owners, job, items.as_slice()),
            Err(reason) => Ok(Err(reason)),
        },
    }
}

// The items of the install text.
fn items_to_place<W: Workshop>(
    alloc: Global,
    shop: &W,
    job: &Job,
) -> Result<Result<Items<Items<u8>>, Reason>, OutOfMemory>
    ensures good { IfOk result (λ items. IfOk items (λ list. IsTrue (list_all is_item list))) }
    ensures few { IfOk result (λ items. IfOk items (λ list. length list ≤ 65536)) }
    ensures told { (told : Told) → W.told shop.now ≡ Some told → IfOk result (λ items. items ≡ items_of (get (told.files job.now) (install_name job.now.pkg))) }
{
    let path = path_of_install(alloc, job)?;
    let seen = shop.read(alloc, job, &path, 1048576)?;
    items_seen(alloc, &seen)
}

fn items_seen(alloc: Global, seen: &Seen) -> Result<Result<Items<Items<u8>>, Reason>, OutOfMemory>
    ensures good { IfOk result (λ items. IfOk items (λ list. IsTrue (list_all is_item list))) }
    ensures few { IfOk result (λ items. IfOk items (λ list. length list ≤ 65536)) }
    ensures told { (stood : Option (Option (List ℕ))) → IsSeen stood install_limit seen.now → IfOk result (λ items. items ≡ items_of stood) }
{
    match seen {
        Seen::Absent => Ok(Ok(Items::new(alloc))),
        Seen::TooLong => Ok(Err(Reason::InstallTooLong)),
        Seen::Unreadable => Ok(Err(Reason::InstallUnreadable)),
        Seen::Bytes(bytes) => items_of_text(alloc, bytes.as_slice()),
    }
}

fn items_of_text(
    alloc: Global,
    text: &[u8],
) -> Result<Result<Items<Items<u8>>, Reason>, OutOfMemory>
    ensures good { IfOk result (λ items. IfOk items (λ list. IsTrue (list_all is_item list))) }
    ensures few { IfOk result (λ items. IfOk items (λ list. length list ≤ 65536)) }
    ensures told { IfOk result (λ items. items ≡ items_read (read_items text.now)) }
{
    match install_text::items_of(alloc, text)? {
        Some(items) => Ok(Ok(items)),
        None => Ok(Err(Reason::InstallNotBuilt)),
    }
}

fn path_of_install(alloc: Global, job: &Job) -> Result<RelPath, OutOfMemory>
    ensures { IfOk result (λ path. path ≡ install_name job.now.pkg) }
{
    let name = job.pkg.name.as_str();
    let text = text_of_install(alloc, name)?;
    RelPath::fixed(alloc, text.as_str())
}

fn text_of_install(alloc: Global, name: &str) -> Result<String, OutOfMemory>
    ensures { IfOk result (λ text. string_bytes text ≡ name.now ++ codes ".install") }
{
    let mut text = String::from_str(alloc, name)?;
    text.push_str(".install")?;
    Ok(text)
}

fn files_of_install<W: Workshop, D: Disk>(
    alloc: Global,
    shop: &W,
    disk: &mut D,
    owners: &[(RelPath, Pkg)],
    job: &Job,
    items: &[Items<u8>],
) -> Result<Result<Items<Placed>, Reason>, Stop>
    requires in_bin { IsTrue (list_all is_owned_in_bin owners.now) }
    requires count { len (owners_of owners.now) ≡ length owners.now }
    requires good { IsTrue (list_all is_item items.now) }
    requires few { length items.now ≤ 65536 }
    ensures cause { Causes Stop.Disk (D.faults disk.old) (D.faults disk.new) result }
    ensures host { result ≢ Err Stop.Host }
    ensures refusal { (refusal : Refusal) → result ≢ Err (Stop.Refused refusal) }
    ensures same { D.told disk.new ≡ D.told disk.old }
    ensures time { Passes (D.moment disk.old) (D.moment disk.new) (D.past disk.old) (D.past disk.new) }
    ensures fit { IfOk result (λ files. IfOk files FilesFit) }
    ensures paths { IfOk result (λ files. IfOk files (λ list. IsTrue (list_all is_in_bin list))) }
    ensures unowned { IfOk result (λ files. IfOk files (λ list. IsTrue (list_all (is_unowned (owners_of owners.now)) list))) }
    ensures apart { IfOk result (λ files. IfOk files (λ list. IsTrue (paths_differ list))) }
    ensures vacant { (s : State) → D.told disk.old ≡ Some s → IfOk result (λ files. IfOk files (λ list. IsTrue (list_all (is_vacant s.files) list))) }
    ensures told { (told : Told) (s : State) → W.told shop.now ≡ Some told → D.told disk.old ≡ Some s →
        IfOk result (λ files. files ≡ files_of_items told s.files (owners_of owners.now) job.now (Ok items.now)) }
{
    match sources_of(alloc, shop, job, items)? {
        Ok(files) => files_if_free(alloc, disk, owners, &job.pkg, files),
        Err(reason) => Ok(Err(reason)),
    }
}

// The files in the order of their paths, where nothing stands in the way of any.
fn files_if_free<D: Disk>(
    alloc: Global,
    disk: &mut D,
    owners: &[(RelPath, Pkg)],
    pkg: &Pkg,
    files: Items<Placed>,
) -> Result<Result<Items<Placed>, Reason>, Stop>
    requires in_bin { IsTrue (list_all is_owned_in_bin owners.now) }
    requires count { len (owners_of owners.now) ≡ length owners.now }
    requires fit { FilesFit files }
    requires paths { IsTrue (list_all is_in_bin files) }
    ensures cause { Causes Stop.Disk (D.faults disk.old) (D.faults disk.new) result }
    ensures host { result ≢ Err Stop.Host }
    ensures refusal { (refusal : Refusal) → result ≢ Err (Stop.Refused refusal) }
    ensures same { D.told disk.new ≡ D.told disk.old }
    ensures time { Passes (D.moment disk.old) (D.moment disk.new) (D.past disk.old) (D.past disk.new) }
    ensures fit { IfOk result (λ order. IfOk order FilesFit) }
    ensures paths { IfOk result (λ order. IfOk order (λ list. IsTrue (list_all is_in_bin list))) }
    ensures unowned { IfOk result (λ order. IfOk order (λ list. IsTrue (list_all (is_unowned (owners_of owners.now)) list))) }
    ensures apart { IfOk result (λ order. IfOk order (λ list. IsTrue (paths_differ list))) }
    ensures vacant { (s : State) → D.told disk.old ≡ Some s → IfOk result (λ order. IfOk order (λ list. IsTrue (list_all (is_vacant s.files) list))) }
    ensures told { (s : State) → D.told disk.old ≡ Some s → IfOk result (λ order. order ≡ if_free s.files (owners_of owners.now) pkg.now (Ok files)) }
{
    match first_in_the_way(alloc, disk, owners, pkg, files.as_slice())? {
        Some(reason) => Ok(Err(reason)),
        None => Ok(files_if_room(alloc, owners, files)?),
    }
}

// The files in the order of their paths, where the switch has room for as many.
fn files_if_room(
    alloc: Global,
    owners: &[(RelPath, Pkg)],
    files: Items<Placed>,
) -> Result<Result<Items<Placed>, Reason>, OutOfMemory>
    requires count { len (owners_of owners.now) ≡ length owners.now }
    ensures room { IfOk result (λ order. order ≡ if_room (owners_of owners.now) files) }
{
    if is_too_full(owners, files.len()) {
        return Ok(Err(Reason::SwitchFull));
    }
    Ok(Ok(sorted(alloc, files)?))
}

// Whether the switch would own more paths than it may, with so many more.
fn is_too_full(owners: &[(RelPath, Pkg)], more: usize) -> bool
    ensures { result ≡ not (nat_le (length owners.now + more) most_paths) }
{
    more > MOST_PATHS || owners.len() > MOST_PATHS - more
}

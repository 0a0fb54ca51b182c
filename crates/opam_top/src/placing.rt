// Whether files can be placed, and in which order.
#![tactic(auto, using(crate::proofs::Passed::time_steps))]

ghost use Rattle.std.specs.Prelude.{◌≡◌, ◌≢◌, ◌≤◌, true, false, None, Some, Ok, Err, IfOk, IsTrue, codes, is_some, length};
ghost use Rattle.std.specs.Option.{option_copied};
ghost use Rattle.std.specs.List.{list_all};
ghost use Rattle.std.specs.FinMap.{get};
ghost use Rattle.outside_io.specs.Counts.{Rose};
ghost use Rattle.crash_disk.specs.Disks.{Counted, State};
ghost use Rattle.opam_top.specs.Pasts.{Passes};
ghost use Rattle.opam_top.specs.Commits.{is_among, paths_differ};
ghost use Rattle.opam_top.specs.Journals.{stands};
ghost use Rattle.opam_top.specs.Owners.{is_owned_in_bin, is_unowned, owners_of};
ghost use Rattle.opam_top.specs.Placements.{first_clash, has_no_file, in_byte_order, in_the_way, is_before, is_bin_path, is_in_bin, looks_fileless, place_of, way_barred};
ghost use Rattle.opam_top.specs.Refusals.{Causes};
ghost use Rattle.opam_top.specs.Switches.{with_owner};
ghost use Rattle.opam_top.specs.declared.stops.Refusal.{Refusal};

use crate::decision::Reason;
use crate::fresh::is_absent;
use crate::owners::owner_of;
use crate::records::Placed;
use crate::stops::Stop;
use crash_disk::{Disk, Look};
use opam_names::{Items, OutOfMemory, Pkg, RelPath};
use outside_io::Failed;
use std::alloc::Global;
use std::cmp::Ordering;

// The first of a package's files that something stands in the way of, as the reason why none is placed.
pub fn first_in_the_way<D: Disk>(
    alloc: Global,
    disk: &mut D,
    owners: &[(RelPath, Pkg)],
    pkg: &Pkg,
    files: &[Placed],
) -> Result<Option<Reason>, Stop>
    requires owned { IsTrue (list_all is_owned_in_bin owners.now) }
    requires paths { IsTrue (list_all is_in_bin files.now) }
    ensures cause { Causes Stop.Disk (D.faults disk.old) (D.faults disk.new) result }
    ensures host { result ≢ Err Stop.Host }
    ensures refusal { (refusal : Refusal) → result ≢ Err (Stop.Refused refusal) }
    ensures same { D.told disk.new ≡ D.told disk.old }
    ensures time { Passes (D.moment disk.old) (D.moment disk.new) (D.past disk.old) (D.past disk.new) }
    ensures unowned { result ≡ Ok None → IsTrue (list_all (is_unowned (owners_of owners.now)) files.now) }
    ensures apart { result ≡ Ok None → IsTrue (paths_differ files.now) }
    ensures told { (s : State) → D.told disk.old ≡ Some s → IfOk result (λ reason. reason ≡ first_clash s.files (owners_of owners.now) pkg.now files.now) }
{
    let [first, ..] = files else {
        return Ok(None);
    };
    if is_bin_a_file(alloc, disk)? {
        return Ok(Some(barred(alloc, owners, &first.path)?));
    }
    first_in_the_folder(alloc, disk, owners, pkg, files)
}

// Whether a file stands at `bin` itself.
fn is_bin_a_file<D: Disk>(alloc: Global, disk: &mut D) -> Result<bool, Stop>
    ensures cause { Causes Stop.Disk (D.faults disk.old) (D.faults disk.new) result }
    ensures host { result ≢ Err Stop.Host }
    ensures refusal { (refusal : Refusal) → result ≢ Err (Stop.Refused refusal) }
    ensures same { D.told disk.new ≡ D.told disk.old }
    ensures time { Passes (D.moment disk.old) (D.moment disk.new) (D.past disk.old) (D.past disk.new) }
    ensures told { (s : State) → D.told disk.old ≡ Some s → IfOk result (λ file. file ≡ is_some (get s.files (codes "bin"))) }
{
    let folder = RelPath::fixed(alloc, "bin")?;
    match disk.look(&folder) {
        Ok(look) => Ok(look == Look::File),
        Err(_) => Err(Stop::Disk),
    }
}

// The reason why a path is not free where a file stands at `bin`.
fn barred(alloc: Global, owners: &[(RelPath, Pkg)], path: &RelPath) -> Result<Reason, OutOfMemory>
    ensures { IfOk result (λ reason. Some reason ≡ way_barred path.now (get (owners_of owners.now) path.now) true) }
{
    match owner_of(owners, path) {
        Some(owner) => Ok(Reason::Owned(path.copy(alloc)?, owner.copy(alloc)?)),
        None => Ok(Reason::Foreign(path.copy(alloc)?)),
    }
}

// The same where no file stands at `bin`.
fn first_in_the_folder<D: Disk>(
    alloc: Global,
    disk: &mut D,
    owners: &[(RelPath, Pkg)],
    pkg: &Pkg,
    files: &[Placed],
) -> Result<Option<Reason>, Stop>
    requires owned { IsTrue (list_all is_owned_in_bin owners.now) }
    requires paths { IsTrue (list_all is_in_bin files.now) }
    ensures cause { Causes Stop.Disk (D.faults disk.old) (D.faults disk.new) result }
    ensures host { result ≢ Err Stop.Host }
    ensures refusal { (refusal : Refusal) → result ≢ Err (Stop.Refused refusal) }
    ensures same { D.told disk.new ≡ D.told disk.old }
    ensures time { Passes (D.moment disk.old) (D.moment disk.new) (D.past disk.old) (D.past disk.new) }
    ensures unowned { result ≡ Ok None → IsTrue (list_all (is_unowned (owners_of owners.now)) files.now) }
    ensures apart { result ≡ Ok None → IsTrue (paths_differ files.now) }
    ensures told { (s : State) → D.told disk.old ≡ Some s → get s.files (codes "bin") ≡ None → IfOk result (λ reason. reason ≡ first_clash s.files (owners_of owners.now) pkg.now files.now) }
{
    for (place, file) in files.iter().enumerate() {
        let before = &files[..place];
        if let Some(reason) = in_the_way(alloc, disk, owners, pkg, before, &file.path)? {
            return Ok(Some(reason));
        }
    }
    Ok(None)
}

// What stands in the way of a file at this path, where no file stands at `bin`, and where the files before it count as
// the package's own.
fn in_the_way<D: Disk>(
    alloc: Global,
    disk: &mut D,
    owners: &[(RelPath, Pkg)],
    pkg: &Pkg,
    before: &[Placed],
    path: &RelPath,
) -> Result<Option<Reason>, Stop>
    requires owned { IsTrue (list_all is_owned_in_bin owners.now) }
    requires paths { IsTrue (list_all is_in_bin before.now) }
    requires path { IsTrue (is_bin_path path.now) }
    ensures cause { Causes Stop.Disk (D.faults disk.old) (D.faults disk.new) result }
    ensures host { result ≢ Err Stop.Host }
    ensures refusal { (refusal : Refusal) → result ≢ Err (Stop.Refused refusal) }
    ensures same { D.told disk.new ≡ D.told disk.old }
    ensures time { Passes (D.moment disk.old) (D.moment disk.new) (D.past disk.old) (D.past disk.new) }
    ensures unowned { result ≡ Ok None → get (owners_of owners.now) path.now ≡ None }
    ensures apart { result ≡ Ok None → is_among before.now path.now ≡ false }
    ensures told { (s : State) → D.told disk.old ≡ Some s → get s.files (codes "bin") ≡ None → IfOk result (λ reason. reason ≡ in_the_way s.files (with_owner (owners_of owners.now) pkg.now before.now) path.now) }
{
    if let Some(owner) = owner_with(owners, pkg, before, path) {
        return Ok(Some(Reason::Owned(path.copy(alloc)?, owner.copy(alloc)?)));
    }
    match is_absent(disk, path) {
        Ok(true) => Ok(None),
        Ok(false) => Ok(Some(Reason::Foreign(path.copy(alloc)?))),
        Err(_) => Err(Stop::Disk),
    }
}

// Who owns the path, where these files are the package's own.
fn owner_with<'a>(
    owners: &'a [(RelPath, Pkg)],
    pkg: &'a Pkg,
    files: &[Placed],
    path: &RelPath,
) -> Option<&'a Pkg>
    ensures { option_copied result ≡ get (with_owner (owners_of owners.now) pkg.now files.now) path.now }
{
    if are_among(files, path) {
        return Some(pkg);
    }
    owner_of(owners, path)
}

// Whether one of these files stands at the path.
fn are_among(files: &[Placed], path: &RelPath) -> bool
    ensures { result ≡ is_among files.now path.now }
{
    files.iter().any(|file| path.as_str() == file.path.as_str())
}

// The files in the order of their paths, byte by byte.
pub fn sorted(alloc: Global, files: Items<Placed>) -> Result<Items<Placed>, OutOfMemory>
    ensures { IfOk result (λ order. order ≡ in_byte_order files) }
{
    let mut left = files.into_vec();
    let mut order = Vec::new(alloc);
    while let Some(file) = left.pop() {
        let place = place_before(&file.path, order.as_slice());
        order.insert(place, file)?;
    }
    Ok(Items::from_vec(order))
}

fn place_before(path: &RelPath, files: &[Placed]) -> usize
    ensures value { result ≡ place_of path.now files.now }
    ensures within { result ≤ length files.now }
{
    for (place, other) in files.iter().enumerate() {
        if !stands_before(&other.path, path) {
            return place;
        }
    }
    files.len()
}

fn stands_before(path: &RelPath, other: &RelPath) -> bool
    ensures { result ≡ is_before path.now other.now }
{
    path.as_str().cmp(other.as_str()) == Ordering::Less
}

// Calls of `folder_repo` over the host of the script.
use crate::packages::{part_of, refused};
use folder_repo::{RepoFault, find};
use opam_filter::Vars;
use opam_names::Pkg;
use opam_package::Member;
use row_script::devices::Devices;
use row_script::fault::Fault;
use row_script::lexer::Word;
use row_script::script::Call;
use row_script::show::{plain, quoted};
use row_script::values::pkg_of;
use std::alloc::Global;

pub fn answer(
    alloc: Global,
    call: &Call,
    devices: &mut Devices,
    vars: &Vars,
) -> Result<String, Fault> {
    match call.name.as_str() {
        "find" => show_found(alloc, call.words.as_slice(), devices, vars),
        _ => Err(Fault::Unknown),
    }
}

fn show_found(
    alloc: Global,
    words: &[Word],
    devices: &mut Devices,
    vars: &Vars,
) -> Result<String, Fault> {
    let [repo, pkg, room, part] = words else {
        return Err(Fault::Unknown);
    };
    let repo = repo.text()?;
    let room = room.number()?;
    let pkg = pkg_of(alloc, pkg)?;
    show(alloc, look(alloc, devices, repo, &pkg, room, vars), part)
}

fn look(
    alloc: Global,
    devices: &mut Devices,
    repo: &str,
    pkg: &Pkg,
    room: u64,
    vars: &Vars,
) -> Result<Option<Member>, RepoFault> {
    let mut host = devices.take_host(alloc);
    let found = find(&mut host, alloc, repo, pkg, room, vars);
    devices.keep_host(host);
    found
}

fn show(
    alloc: Global,
    found: Result<Option<Member>, RepoFault>,
    part: &Word,
) -> Result<String, Fault> {
    match found {
        Ok(None) => plain(alloc, "absent"),
        Ok(Some(member)) => show_part(alloc, &member, part),
        Err(RepoFault::HostFailed) => plain(alloc, "failed"),
        Err(RepoFault::TooLong) => plain(alloc, "too long"),
        Err(RepoFault::Package(fault)) => refused(alloc, fault),
        Err(RepoFault::Memory) => Err(Fault::Memory),
    }
}

// The package, the text of its file, or a part of what it says.
fn show_part(alloc: Global, member: &Member, part: &Word) -> Result<String, Fault> {
    if part.is("pkg") {
        return Ok(member.package.pkg.print(alloc)?);
    }
    if part.is("opam") {
        return quoted(alloc, member.opam.as_slice());
    }
    part_of(alloc, &member.package, part)
}

// What the repository has of packages.
ghost use Rattle.std.specs.Prelude.{◌≡◌, ◌≢◌, ◌≤◌, ℕ, List, [], ◌∷◌, ◌++◌, Some, Err, IfOk, OnOk, IsTrue, length, map, string_bytes};
ghost use Rattle.std.specs.List.{filter_map, list_all};
ghost use Rattle.std.specs.declared.option.Option.{Option};
ghost use Rattle.outside_io.specs.Counts.{Files};
ghost use Rattle.outside_io.specs.Hosts.{IsFound};
ghost use Rattle.opam_top.specs.Fronts.{answer_by, answer_of, is_known, is_short, member_of, members_of, opam_limit, opam_path, unknown_of};
ghost use Rattle.opam_top.specs.Refusals.{Causes, Gives};
ghost use Rattle.opam_top.specs.declared.member.Member.{Member};
ghost use Rattle.opam_top.specs.declared.stops.Refusal.{Refusal};

use crate::host_file::read_file;
use crate::member::{Answer, Member};
use crate::opam_file::commands_of;
use crate::stops::{Stop, stop_not_built, stop_not_in_repository};
use opam_names::{Items, OutOfMemory, Pkg};
use outside_io::{Found, Host};
use std::alloc::Global;

const OPAM_LIMIT: u64 = 1048576;

// The packages with what the repository has of them. All of them are asked for before the first refusal.
pub fn members_in_repository<H: Host>(
    alloc: Global,
    host: &mut H,
    repo: &str,
    pkgs: &[Pkg],
) -> Result<Items<Member>, Stop>
    ensures cause { Causes Stop.Host (H.faults host.old) (H.faults host.new) result }
    ensures disk { result ≢ Err Stop.Disk }
    ensures told { (files : Files) → H.files host.old ≡ Some files →
        Gives (λ (members : List Member). members) result (members_of (map (answer_of files repo.now) pkgs.now)) }
    ensures few { IfOk result (λ members. length members ≤ length pkgs.now) }
    ensures short { IfOk result (λ members. IsTrue (list_all is_short members)) }
{
    match answers_of(alloc, host, repo, pkgs) {
        Ok(answers) => members_of(alloc, answers),
        Err(stop) => Err(stop),
    }
}

// What the repository has of each package, in their order.
pub fn answers_of<H: Host>(
    alloc: Global,
    host: &mut H,
    repo: &str,
    pkgs: &[Pkg],
) -> Result<Items<Answer>, Stop>
    ensures cause { Causes Stop.Host (H.faults host.old) (H.faults host.new) result }
    ensures disk { result ≢ Err Stop.Disk }
    ensures refusal { (refusal : Refusal) → result ≢ Err (Stop.Refused refusal) }
    ensures same { H.files host.new ≡ H.files host.old }
    ensures told { (files : Files) → H.files host.old ≡ Some files → IfOk result (λ answers. answers ≡ map (answer_of files repo.now) pkgs.now) }
    ensures each { IfOk result (λ answers. length answers ≡ length pkgs.now) }
    ensures short { IfOk result (λ answers. IsTrue (list_all is_short (filter_map member_of answers))) }
{
    let mut answers = Items::new(alloc);
    for pkg in pkgs {
        let answer = answer_of(alloc, host, repo, pkg)?;
        answers.push(answer)?;
    }
    Ok(answers)
}

// What the repository has of a package.
fn answer_of<H: Host>(alloc: Global, host: &mut H, repo: &str, pkg: &Pkg) -> Result<Answer, Stop>
    ensures cause { Causes Stop.Host (H.faults host.old) (H.faults host.new) result }
    ensures disk { result ≢ Err Stop.Disk }
    ensures refusal { (refusal : Refusal) → result ≢ Err (Stop.Refused refusal) }
    ensures same { H.files host.new ≡ H.files host.old }
    ensures told { (files : Files) → H.files host.old ≡ Some files → IfOk result (λ answer. answer ≡ answer_of files repo.now pkg.now) }
    ensures short { IfOk result (λ answer. IsTrue (list_all is_short (filter_map member_of (answer ∷ [])))) }
{
    let path = path_of_opam(alloc, repo, pkg)?;
    let found = read_file(alloc, host, path.as_str(), OPAM_LIMIT)?;
    Ok(answer_by(alloc, pkg, found)?)
}

fn path_of_opam(alloc: Global, repo: &str, pkg: &Pkg) -> Result<String, OutOfMemory>
    ensures { IfOk result (λ path. string_bytes path ≡ opam_path repo.now pkg.now) }
{
    let mut path = String::from_str(alloc, repo)?;
    path.push_str("/packages/")?;
    path.push_str(pkg.name.as_str())?;
    path.push_str("/")?;
    path.push_str(pkg.print(alloc)?.as_str())?;
    path.push_str("/opam")?;
    Ok(path)
}

fn answer_by(alloc: Global, pkg: &Pkg, found: Found) -> Result<Answer, OutOfMemory>
    ensures told { (stood : Option (List ℕ)) → IsFound stood opam_limit found → IfOk result (λ answer. answer ≡ answer_by pkg.now stood) }
    ensures short { IfOk result (λ answer. IsTrue (list_all is_short (filter_map member_of (answer ∷ [])))) }
{
    match found {
        Found::Absent => Ok(Answer::Unknown(pkg.copy(alloc)?)),
        Found::TooLong => Ok(Answer::NotBuilt),
        Found::Bytes(opam) => answer_with(alloc, pkg, opam),
    }
}

fn answer_with(alloc: Global, pkg: &Pkg, opam: Items<u8>) -> Result<Answer, OutOfMemory>
    ensures answer { IfOk result (λ answer. answer ≡ answer_by pkg.now (Some opam)) }
    ensures short { IfOk result (λ answer. IsTrue (list_all is_short (filter_map member_of (answer ∷ [])))) }
{
    if opam.len() > 1048576 {
        return Ok(Answer::NotBuilt);
    }
    match commands_of(alloc, opam.as_slice())? {
        None => Ok(Answer::NotBuilt),
        Some(commands) => Ok(Answer::Known(Member {
            pkg: pkg.copy(alloc)?,
            opam,
            commands,
        })),
    }
}

// The packages, where the repository has each, and each is built.
pub fn members_of(alloc: Global, answers: Items<Answer>) -> Result<Items<Member>, Stop>
    ensures host { result ≢ Err Stop.Host }
    ensures disk { result ≢ Err Stop.Disk }
    ensures told { Gives (λ (members : List Member). members) result (members_of answers) }
    ensures all { IfOk result (λ members. members ≡ filter_map member_of answers) }
{
    let unknown = unknown_pkgs(alloc, answers.as_slice())?;
    if !unknown.is_empty() {
        return Err(stop_not_in_repository(alloc, unknown.as_slice()));
    }
    if !are_known(answers.as_slice()) {
        return Err(stop_not_built(alloc));
    }
    Ok(known_members(alloc, answers)?)
}

// The packages that the repository lacks, in their order.
fn unknown_pkgs(alloc: Global, answers: &[Answer]) -> Result<Items<Pkg>, OutOfMemory>
    ensures { IfOk result (λ pkgs. pkgs ≡ filter_map unknown_of answers.now) }
{
    let mut pkgs = Items::new(alloc);
    for answer in answers {
        push_unknown(alloc, &mut pkgs, answer)?;
    }
    Ok(pkgs)
}

fn push_unknown(alloc: Global, pkgs: &mut Items<Pkg>, answer: &Answer) -> Result<(), OutOfMemory>
    ensures { OnOk result (pkgs.new ≡ pkgs.old ++ filter_map unknown_of (answer.now ∷ [])) }
{
    match answer {
        Answer::Unknown(pkg) => pkgs.push(pkg.copy(alloc)?),
        Answer::Known(_) | Answer::NotBuilt => Ok(()),
    }
}

fn are_known(answers: &[Answer]) -> bool
    ensures { result ≡ list_all is_known answers.now }
{
    for answer in answers {
        if !is_known(answer) {
            return false;
        }
    }
    true
}

fn is_known(answer: &Answer) -> bool
    ensures { result ≡ is_known answer.now }
{
    match answer {
        Answer::Known(_) => true,
        Answer::Unknown(_) | Answer::NotBuilt => false,
    }
}

// The packages that are known, in their order.
fn known_members(alloc: Global, answers: Items<Answer>) -> Result<Items<Member>, OutOfMemory>
    ensures { IfOk result (λ members. members ≡ filter_map member_of answers) }
{
    let mut members = Items::new(alloc);
    for answer in answers.into_vec() {
        push_known(&mut members, answer)?;
    }
    Ok(members)
}

fn push_known(members: &mut Items<Member>, answer: Answer) -> Result<(), OutOfMemory>
    ensures { OnOk result (members.new ≡ members.old ++ filter_map member_of (answer ∷ [])) }
{
    match answer {
        Answer::Known(member) => members.push(member),
        Answer::Unknown(_) | Answer::NotBuilt => Ok(()),
    }
}

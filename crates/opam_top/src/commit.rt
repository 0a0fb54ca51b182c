// The commit of a record.
#![tactic(auto, using(crate::proofs::Passed::time_steps))]

ghost use Rattle.std.specs.Prelude.{◌≤◌, ◌≡◌, ◌<◌, ◌-◌, ◌^◌, Some, IfOk, OnOk};
ghost use Rattle.crash_disk.specs.Disks.{Counted, TellsChange};
ghost use Rattle.opam_top.specs.Pasts.{Passes};
ghost use Rattle.opam_top.specs.Commits.{Becomes, IsSettled, TouchesOnly, committed, is_among, is_of_commit, kept, opened, ready_with, recorded, with_files};
ghost use Rattle.opam_top.specs.Records.{BodyFits, record_bytes};
ghost use Rattle.opam_top.specs.declared.records.Rec.{Rec};

use crate::numbering::{gate_path_of, record_path_of};
use crate::records::{Placed, encode_install};
use crash_disk::Disk;
use opam_names::{Items, OutOfMemory, Pkg, RelPath};
use outside_io::Failed;
use std::alloc::Global;

/// A record that is ready for its commit: its bytes, where it and its gate stand, the gate that comes next, and the
/// files to be put, in this order.
#[derive(Drop)]
pub struct Encoded {
    pub bytes: Items<u8>,
    pub rec_path: RelPath,
    pub gate_path: RelPath,
    pub next_gate: RelPath,
    pub puts: Items<Placed>,
}

/// The record of the install of a package, made ready for its commit under this number.
pub fn make_ready(
    alloc: Global,
    number: u64,
    pkg: &Pkg,
    opam: &[u8],
    files: Items<Placed>,
) -> Result<Encoded, OutOfMemory>
    requires fit { BodyFits opam.now files }
    requires not_last { number < 2 ^ 64 - 1 }
    ensures { IfOk result (λ ready. ready ≡ ready_with number (record_bytes (Rec.Install pkg.now opam.now files)) files) }
{
    let bytes = encode_install(alloc, pkg, opam, files.as_slice())?;
    let rec_path = record_path_of(alloc, number)?;
    let gate_path = gate_path_of(alloc, number)?;
    let next_gate = gate_path_of(alloc, number + 1)?;
    Ok(Encoded {
        bytes,
        rec_path,
        gate_path,
        next_gate,
        puts: files,
    })
}

/// Commits a record: the record first, then its gate, then its files, each durable before the next begins. It gives up
/// at the first failure.
pub fn commit<D: Disk>(disk: &mut D, ready: &Encoded) -> Result<(), Failed>
    ensures cause { Counted (D.faults disk.old) (D.faults disk.new) result }
    ensures held { D.held disk.new ≡ D.held disk.old }
    ensures time { Passes (D.moment disk.old) (D.moment disk.new) (D.past disk.old) (D.past disk.new) }
    ensures touches { TouchesOnly (is_of_commit ready.now) (D.told disk.old) (D.told disk.new) }
    ensures done { OnOk result (Becomes (committed ready.now) (D.told disk.old) (D.told disk.new)) }
    ensures settled { OnOk result (IsSettled (D.told disk.new)) }
{
    write_record(disk, ready)?;
    open_gate(disk, ready)?;
    place_files(disk, ready)
}

// What stands at the next gate must be gone before this record can be seen.
#[tactic(auto, using(crate::proofs::Commits::record_steps))]
fn write_record<D: Disk>(disk: &mut D, ready: &Encoded) -> Result<(), Failed>
    ensures cause { Counted (D.faults disk.old) (D.faults disk.new) result }
    ensures held { D.held disk.new ≡ D.held disk.old }
    ensures time { Passes (D.moment disk.old) (D.moment disk.new) (D.past disk.old) (D.past disk.new) }
    ensures touches { TouchesOnly (is_of_commit ready.now) (D.told disk.old) (D.told disk.new) }
    ensures done { OnOk result (Becomes (recorded ready.now) (D.told disk.old) (D.told disk.new)) }
    ensures settled { OnOk result (IsSettled (D.told disk.new)) }
{
    disk.remove(&ready.next_gate)?;
    disk.put(&ready.rec_path, ready.bytes.as_slice(), false)?;
    disk.sync()
}

#[tactic(auto, using(crate::proofs::Commits::gate_steps))]
fn open_gate<D: Disk>(disk: &mut D, ready: &Encoded) -> Result<(), Failed>
    ensures cause { Counted (D.faults disk.old) (D.faults disk.new) result }
    ensures held { D.held disk.new ≡ D.held disk.old }
    ensures time { Passes (D.moment disk.old) (D.moment disk.new) (D.past disk.old) (D.past disk.new) }
    ensures touches { TouchesOnly (is_of_commit ready.now) (D.told disk.old) (D.told disk.new) }
    ensures done { OnOk result (Becomes (opened ready.now) (D.told disk.old) (D.told disk.new)) }
    ensures settled { OnOk result (IsSettled (D.told disk.new)) }
{
    disk.put(&ready.gate_path, b"ok\n", false)?;
    disk.sync()
}

fn place_files<D: Disk>(disk: &mut D, ready: &Encoded) -> Result<(), Failed>
    ensures cause { Counted (D.faults disk.old) (D.faults disk.new) result }
    ensures held { D.held disk.new ≡ D.held disk.old }
    ensures time { Passes (D.moment disk.old) (D.moment disk.new) (D.past disk.old) (D.past disk.new) }
    ensures touches { TouchesOnly (is_of_commit ready.now) (D.told disk.old) (D.told disk.new) }
    ensures done { OnOk result (Becomes (λ tree. with_files tree ready.now.puts) (D.told disk.old) (D.told disk.new)) }
    ensures settled { OnOk result (IsSettled (D.told disk.new)) }
{
    put_files(disk, ready.puts.as_slice())?;
    disk.sync()
}

fn put_files<D: Disk>(disk: &mut D, files: &[Placed]) -> Result<(), Failed>
    ensures cause { Counted (D.faults disk.old) (D.faults disk.new) result }
    ensures held { D.held disk.new ≡ D.held disk.old }
    ensures time { Passes (D.moment disk.old) (D.moment disk.new) (D.past disk.old) (D.past disk.new) }
    ensures touches { TouchesOnly (is_among files.now) (D.told disk.old) (D.told disk.new) }
    ensures done { OnOk result (Becomes (λ tree. with_files tree files.now) (D.told disk.old) (D.told disk.new)) }
{
    for file in files {
        put_file(disk, file)?;
    }
    Ok(())
}

fn put_file<D: Disk>(disk: &mut D, file: &Placed) -> Result<(), Failed>
    ensures cause { Counted (D.faults disk.old) (D.faults disk.new) result }
    ensures held { D.held disk.new ≡ D.held disk.old }
    ensures time { Passes (D.moment disk.old) (D.moment disk.new) (D.past disk.old) (D.past disk.new) }
    ensures put { TellsChange file.now.path (Some (kept file.now)) (D.told disk.old) (D.told disk.new) result }
{
    disk.put(&file.path, file.bytes.as_slice(), file.exec)
}

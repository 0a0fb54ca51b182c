// What no answer shows: that each step of each job is asked for once and in order, none after one that did not end well,
// and that no file is read before the build has ended.
ghost use Rattle.std.specs.declared.option.Option.TheVariants.{None};

use crate::runs::facts;
use crash_disk::MemoryDisk;
use opam_names::{OutOfMemory, RelPath};
use opam_top::opam_run;
use outside_io::{Ending, Job, MemoryHost, MemorySink, Seen, Workshop};
use std::alloc::Global;
use std::sync::Arc;
use std::sync::atomic::{AtomicU64, Ordering};
use std::test::Fail;

// The state of a job is its next step, or one of these.
const BUILT: u64 = 1000;

const STOPPED: u64 = 1001;

// A shop that notes what it was not to be asked for. Step 2 of package `b` ends in 2.
#[derive(Drop)]
struct WatchedShop {
    of_a: AtomicU64,
    of_b: AtomicU64,
    surprises: AtomicU64,
}

impl WatchedShop {
    fn state(&self, job: &Job) -> &AtomicU64 {
        if job.pkg.name.as_str() == "a" {
            &self.of_a
        } else {
            &self.of_b
        }
    }

    // The job was to be in this state.
    fn expect(&self, job: &Job, state: u64) {
        if self.state(job).load(Ordering::SeqCst) != state {
            self.surprises.store(1, Ordering::SeqCst);
        }
    }
}

impl Workshop for WatchedShop {
    ghost told = { λ _. None };

    fn build_step(&self, _alloc: Global, job: &Job, step: u32) -> Result<Ending, OutOfMemory> {
        self.expect(job, u64::from(step));
        if step == 2 && job.pkg.name.as_str() == "b" {
            self.state(job).store(STOPPED, Ordering::SeqCst);
            return Ok(Ending::Exit(2));
        }
        let is_last = step as usize == job.commands.len();
        let next = if is_last { BUILT } else { u64::from(step) + 1 };
        self.state(job).store(next, Ordering::SeqCst);
        Ok(Ending::Exit(0))
    }

    fn read(
        &self,
        _alloc: Global,
        job: &Job,
        _path: &RelPath,
        _limit: u64,
    ) -> Result<Seen, OutOfMemory> {
        self.expect(job, BUILT);
        Ok(Seen::Absent)
    }
}

const LOCK: &[u8] = b"depends: [\"a\" {= \"1\"} \"b\" {= \"1\"}]\n";

const OPAM: &[u8] = b"opam-version: \"2.0\"\nbuild: [[\"x\"] [\"y\"] [\"z\"]]\n";

fn host(alloc: Global) -> Result<MemoryHost, Fail> {
    let mut files = Vec::new(alloc);
    for (path, text) in [
        ("l", LOCK),
        ("./packages/a/a.1/opam", OPAM),
        ("./packages/b/b.1/opam", OPAM),
    ] {
        files.push((
            String::from_str(alloc, path)?,
            Vec::from_slice(alloc, text)?,
        ))?;
    }
    Ok(MemoryHost::new(files, Vec::new(alloc)))
}

#[test]
fn steps_are_asked_for_in_order(rt: HostRuntime) -> Result<(), Fail> {
    let alloc = rt.alloc();
    let mut words = Vec::new(alloc);
    for word in ["install", "--lock-file", "l"] {
        words.push(String::from_str(alloc, word)?)?;
    }
    let shop = Arc::new(
        alloc,
        WatchedShop {
            of_a: AtomicU64::new(0),
            of_b: AtomicU64::new(0),
            surprises: AtomicU64::new(0),
        },
    )?;
    let ended = opam_run(
        &rt,
        alloc,
        words.as_slice(),
        &facts(alloc)?,
        &mut host(alloc)?,
        &shop,
        &mut MemoryDisk::new(alloc, Vec::new(alloc), Vec::new(alloc), false),
        &mut MemorySink::new(alloc, Vec::new(alloc)),
        &mut MemorySink::new(alloc, Vec::new(alloc)),
    );
    assert_eq!(rt; ended.status.number(), 31);
    assert_eq!(rt; shop.of_a.load(Ordering::SeqCst), BUILT);
    assert_eq!(rt; shop.of_b.load(Ordering::SeqCst), STOPPED);
    assert_eq!(rt; shop.surprises.load(Ordering::SeqCst), 0);
    Ok(())
}

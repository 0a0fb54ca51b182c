// The steps of a job, one after the other.
ghost use Rattle.std.specs.Prelude.{◌≡◌, ◌<◌, ◌-◌, ◌^◌, ◌↔◌, IfOk, IsTrue, length};
ghost use Rattle.outside_io.specs.declared.workshop.Ending.TheVariants.{Exit};
ghost use Rattle.child_pool.specs.Crews.{TellsFate};

use opam_names::OutOfMemory;
use outside_io::{Ending, Fate, Job, Workshop};
use std::alloc::Global;

/// Builds a job: it prepares the build folder and runs the commands, up to the first step that does not end in
/// `Exit(0)`.
pub fn build<W: Workshop>(alloc: Global, shop: &W, job: &Job) -> Result<Fate, OutOfMemory>
    requires { length job.now.commands < 2 ^ 32 - 1 }
    ensures { IfOk result (λ fate. TellsFate (W.told shop.now) job.now fate) }
{
    let count = job.commands.len() as u32 + 1;
    for step in 0..count {
        let ending = shop.build_step(alloc, job, step)?;
        if !is_good(ending) {
            return Ok(Fate::Stopped { step, ending });
        }
    }
    Ok(Fate::Built)
}

fn is_good(ending: Ending) -> bool
    ensures { IsTrue result ↔ (ending ≡ Exit 0) }
{
    match ending {
        Ending::Exit(code) => code == 0,
        Ending::Killed | Ending::NotStarted | Ending::NotPrepared => false,
    }
}

// Files of the machine.
ghost use Rattle.std.specs.Prelude.{◌≡◌, ◌≢◌, Some, Err, IfOk};
ghost use Rattle.std.specs.FinMap.{get};
ghost use Rattle.outside_io.specs.Counts.{Files};
ghost use Rattle.outside_io.specs.Hosts.{IsFound};
ghost use Rattle.opam_top.specs.Refusals.{Causes};
ghost use Rattle.opam_top.specs.declared.stops.Refusal.{Refusal};

use crate::stops::Stop;
use outside_io::{Found, Host, HostFault};
use std::alloc::Global;

// The file at a path, read up to a limit in bytes; a fault of the host ends the run.
pub fn read_file<H: Host>(
    alloc: Global,
    host: &mut H,
    path: &str,
    limit: u64,
) -> Result<Found, Stop>
    ensures cause { Causes Stop.Host (H.faults host.old) (H.faults host.new) result }
    ensures disk { result ≢ Err Stop.Disk }
    ensures refusal { (refusal : Refusal) → result ≢ Err (Stop.Refused refusal) }
    ensures same { H.files host.new ≡ H.files host.old }
    ensures told { (files : Files) → H.files host.old ≡ Some files → IfOk result (λ found. IsFound (get files path.now) limit found) }
{
    match host.read(alloc, path, limit) {
        Ok(found) => Ok(found),
        Err(HostFault::Failed) => Err(Stop::Host),
        Err(HostFault::Memory) => Err(Stop::Memory),
    }
}

//! A read from a host once more, with what it does in the words over a whole host: code above calls this, so that its
//! contracts and proofs see the words alone.
#![tactic(auto, using(crate::proofs::HostEffects::host_call_steps))]

ghost use Rattle.outside_io.specs.HostEffects.{HostFails, OnlyReadsHost, has_host_failed};
ghost use Rattle.outside_io.specs.Hosts.{HostTells};

use crate::{Found, Host, HostFault};
use std::alloc::Global;

/// The file at a path, if it has at most `limit` bytes.
pub fn read<H: Host>(
    host: &mut H,
    alloc: Global,
    path: &str,
    limit: u64,
) -> Result<Found, HostFault>
    ensures reads { OnlyReadsHost H.Host host.old host.new }
    ensures cause { HostFails H.Host (has_host_failed result) host.old host.new }
    ensures told { HostTells (H.files host.old) path.now limit result }
{
    host.read(alloc, path, limit)
}

// A target is judged: by the length of its texts, by what stands against it, and by its plan.
ghost use Rattle.std.specs.Prelude.{◌≡◌, ◌+◌, ◌<◌, ◌^◌, IfOk, bytes_eq, length, map, nat_lt};
ghost use Rattle.std.specs.List.{IsDistinct};
ghost use Rattle.opam_names.specs.ByteOrders.{RisesBy};
ghost use Rattle.lock_check.specs.Targets.{member_name};
ghost use Rattle.change_front.specs.Judging.{IsJudged, texts_length};
ghost use Rattle.change_front.specs.declared.limits.TheConstants.{TEXTS_LIMIT};

use crate::{Front, Planned, Refusal, TEXTS_LIMIT};
use action_graph::{PlanFault, plan_of};
use lock_check::Violation;
use opam_names::{Items, OutOfMemory};
use opam_package::{Member, Target};
use std::alloc::Global;

fn are_too_long(members: &[Member]) -> bool
    ensures { result ≡ nat_lt TEXTS_LIMIT (texts_length members.now) }
{
    let mut left = TEXTS_LIMIT;
    for member in members {
        let len = member.opam.len() as u64;
        if left < len {
            return true;
        }
        left -= len;
    }
    false
}

/// What a target comes to, with what stands against it.
pub(crate) fn judge(
    alloc: Global,
    installed: &[Member],
    target: Target,
    told: Items<Violation>,
) -> Result<Front, OutOfMemory>
    requires small { length target.members + length installed.now < 2 ^ 32 }
    requires differ { IsDistinct bytes_eq (map member_name installed.now) }
    requires rises { RisesBy member_name target.members }
    ensures { IfOk result (IsJudged installed.now target told) }
{
    if are_too_long(target.members.as_slice()) {
        return Ok(Front::Refuses(Refusal::TextsTooLong));
    }
    if !told.is_empty() {
        return Ok(Front::Refuses(Refusal::Violations(told)));
    }
    match plan_of(alloc, installed, &target) {
        Ok(plan) => Ok(Front::Plans(Planned { target, plan })),
        Err(PlanFault::Cycle { names }) => Ok(Front::Refuses(Refusal::Cycle(names))),
        Err(PlanFault::Memory) => Err(OutOfMemory),
    }
}

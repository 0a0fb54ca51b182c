// What a change does, and why there is no order of its installs.
ghost use Rattle.std.specs.Prelude.{◌≡◌};

use opam_names::{Items, Name, OutOfMemory};

/// An install: the place of a member in the target, and the places of all its needs there, in the byte order of their names.
#[derive(Drop)]
pub struct Step {
    pub member: u32,
    pub needs: Items<u32>,
}

/// What a change of a switch does: first the removals, then the installs.
#[derive(Drop)]
pub struct Plan {
    /// The places of entries that leave, in the order in which they do.
    pub removals: Items<u32>,
    pub installs: Items<Step>,
    /// The places of members of the target that are neither installed nor among the installs.
    pub missing: Items<u32>,
}

/// Why there is no plan.
#[derive(Drop)]
pub enum PlanFault {
    /// These need one another, so that none of them can come first, or they need one of those. The names are in byte order.
    Cycle { names: Items<Name> },
    Memory,
}

impl From<OutOfMemory> for PlanFault {
    ghost use Rattle.action_graph.specs.declared.plan.PlanFault.TheVariants.{Memory};

    ghost from_gives = { λ _ e. e ≡ Memory };

    fn from(_: OutOfMemory) -> Self {
        PlanFault::Memory
    }
}

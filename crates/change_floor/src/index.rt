// Where members stand among the installs of a plan, and which are missing.
ghost use Rattle.std.specs.Prelude.{◌≡◌, ◌<◌, nat_eq, length, take, IfOk};
ghost use Rattle.std.specs.BTreeMap.{get};
ghost use Rattle.std.specs.BTreeSet.{contains};
ghost use Rattle.std.specs.Ordering.{nat_cmp};
ghost use Rattle.change_floor.specs.FloorLaws.{EachOnce};
ghost use Rattle.change_floor.specs.Keeping.{Indexes, KnowsMissing, KnowsPlaces};

use action_graph::{Plan, Step};
use opam_names::OutOfMemory;
use std::alloc::Global;
use std::collections::{BTreeMap, BTreeSet};

#[derive(Drop)]
pub(crate) struct Index {
    pub(crate) places: BTreeMap<u32, usize>,
    pub(crate) missing: BTreeSet<u32>,
}

fn places_of(alloc: Global, installs: &[Step]) -> Result<BTreeMap<u32, usize>, OutOfMemory>
    requires { EachOnce installs.now }
    ensures { IfOk result (KnowsPlaces installs.now) }
{
    let mut places = BTreeMap::new(alloc);
    for place in 0..installs.len() {
        match places.insert(installs[place].member, place) {
            Ok(_) => {}
            Err(_) => return Err(OutOfMemory),
        }
    }
    Ok(places)
}

fn set_of(alloc: Global, members: &[u32]) -> Result<BTreeSet<u32>, OutOfMemory>
    ensures { IfOk result (KnowsMissing members.now) }
{
    let mut set = BTreeSet::new(alloc);
    for member in members {
        match set.insert(*member) {
            Ok(_) => {}
            Err(_) => return Err(OutOfMemory),
        }
    }
    Ok(set)
}

pub(crate) fn index_of(alloc: Global, plan: &Plan) -> Result<Index, OutOfMemory>
    requires { EachOnce plan.now.installs }
    ensures { IfOk result (Indexes plan.now) }
{
    Ok(Index {
        places: places_of(alloc, plan.installs.as_slice())?,
        missing: set_of(alloc, plan.missing.as_slice())?,
    })
}

impl Index {
    pub(crate) fn place(&self, member: u32) -> Option<usize>
        ensures { result ≡ get nat_cmp self.now.places member }
    {
        self.places.get(&member).copied()
    }

    pub(crate) fn is_missing(&self, member: u32) -> bool
        ensures { result ≡ contains nat_cmp self.now.missing member }
    {
        self.missing.contains(&member)
    }
}

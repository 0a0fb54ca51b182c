// Laws of the definitions, each the contract of a function that does nothing.
ghost use Rattle.owner_map.specs.OwningLaws.{AdditionsAreMet};

/// After an addition a path meets the new one or one of the old ones. So paths of which none clashes can be added one after
/// another.
pub fn additions_are_met()
    ensures { AdditionsAreMet }
{}

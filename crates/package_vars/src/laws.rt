// A law of the variables of a build, proved as a clause of a function that does nothing.
ghost use Rattle.package_vars.specs.VariableLaws.{ScopesAreEnough};

/// Of the view and of the names that are asked for, a variable depends on those that have its scope alone.
pub fn scopes_are_enough()
    ensures { ScopesAreEnough }
{}

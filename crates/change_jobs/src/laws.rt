// Laws, each proved as a clause of a function that does nothing.
ghost use Rattle.change_jobs.specs.CourseLaws.{DecisionsGoOn, EndsAreAsTold, EndsAreDecided, EndsAreSingle, JobIsOne};
ghost use Rattle.change_jobs.specs.PackageJobs.{PackagesAreShort};

/// A member of a target has one job at most.
pub fn job_is_one()
    ensures { JobIsOne }
{}

/// A package that was read from an opam text has few enough commands for a job.
pub fn packages_are_short()
    ensures { PackagesAreShort }
{}

/// When an action is decided, floor and crew stay abreast, and the course goes on by it.
pub fn decisions_go_on()
    ensures { DecisionsGoOn }
{}

/// Where the shop tells, each job of a course ends with the fate that is told of the install at its place.
pub fn ends_are_as_told()
    ensures { EndsAreAsTold }
{}

/// No job ends twice.
pub fn ends_are_single()
    ensures { EndsAreSingle }
{}

/// Once nothing is left, the jobs that have ended are just those of the installs that were decided by their fate.
pub fn ends_are_decided()
    ensures { EndsAreDecided }
{}

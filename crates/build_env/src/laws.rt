// A law of jobs, proved as a clause of a function that does nothing but call upon laws below.
ghost use Rattle.build_env.specs.JobLaws.{EnvironmentIsOfExports};

use opam_filter::{asked_is_enough, names_rise};
use package_vars::scopes_are_enough;

/// The environment of a job depends on the exports and on the package's own updates alone, and of the view on what they
/// ask for.
pub fn environment_is_of_exports()
    ensures { EnvironmentIsOfExports }
{
    asked_is_enough();
    scopes_are_enough();
    names_rise();
}

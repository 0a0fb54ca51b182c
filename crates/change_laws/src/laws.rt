// What holds of every change. Nothing here runs: each function stands for its law.
ghost use Rattle.change_laws.specs.BeginLaws.{PlansBeginWell};
ghost use Rattle.change_laws.specs.Fits.{FitPlansFit};
ghost use Rattle.change_laws.specs.RestLaws.{RestsGoOn};
ghost use Rattle.change_laws.specs.SoundRuns.{NoFileHasTwoOwners, SoundAfterEachAction};

use switch_state::{
    actions_keep_form, installs_keep_sound, put_backs_keep_sound, removals_keep_sound,
    requests_remove_first,
};

/// A sound switch is sound after each committed action of a change whose plan fits.
pub fn stays_sound()
    ensures { SoundAfterEachAction }
{
    actions_keep_form();
    requests_remove_first();
    installs_keep_sound();
    put_backs_keep_sound();
    removals_keep_sound();
}

/// A plan that is fit for what is installed and a target fits a request for that target, where its installs stand in order.
pub fn fit_plans_fit()
    ensures { FitPlansFit }
{}

/// Where a target agrees, the plan of its change asks soundly; and once its request has begun the plan fits it, and the change is the
/// rest of it.
pub fn plans_begin_well()
    ensures { PlansBeginWell }
{}

/// After each committed action no path has two owners, and no owned path is above another.
pub fn no_file_has_two_owners()
    ensures { NoFileHasTwoOwners }
{
    actions_keep_form();
    requests_remove_first();
}

/// A change that is stopped between two of its actions and then goes on with the rest of its request commits what it would have
/// committed, and ends where it would have.
pub fn rests_go_on()
    ensures { RestsGoOn }
{
    actions_keep_form();
    requests_remove_first();
}

// Laws of sound and of well-formed states, each the contract of a function that does nothing.
ghost use Rattle.switch_state.specs.FormedLaws.{ActionsKeepForm, BeginsKeepForm, EmptyIsFormed, EndsKeepForm, NextBeginsKeepForm};
ghost use Rattle.switch_state.specs.SoundLaws.{BeginsKeepSound, EmptyIsSound, EndsKeepSound, InstallsKeepInstalled, InstallsKeepSound, NextBeginsKeepSound, PutBacksKeepInstalled, PutBacksKeepSound, RemovalsKeepInstalled, RemovalsKeepSound};
ghost use Rattle.switch_state.specs.Underway.{ActionsRemoveFirst, BeginsRemoveFirst};

use owner_map::additions_are_met;

/// The empty state is sound, over any files.
pub fn the_empty_state_is_sound()
    ensures { EmptyIsSound }
{}

/// What is installed stays sound with an install that suits it, and the whole state with one that comes in turn besides.
pub fn installs_keep_sound()
    ensures installed { InstallsKeepInstalled }
    ensures whole { InstallsKeepSound }
{
    additions_are_met();
}

/// What is installed stays sound with a package that is put back and suits it, and so does the whole state where the open
/// request removes first.
pub fn put_backs_keep_sound()
    ensures installed { PutBacksKeepInstalled }
    ensures whole { PutBacksKeepSound }
{
    additions_are_met();
}

/// What is installed stays sound without a package that no other entry needs when it runs. Where the open request removes
/// first its next removal is such a package, and the whole state stays sound.
pub fn removals_keep_sound()
    ensures installed { RemovalsKeepInstalled }
    ensures whole { RemovalsKeepSound }
{}

/// A request removes first once it has begun, and whatever it does.
pub fn requests_remove_first()
    ensures begun { BeginsRemoveFirst }
    ensures kept { ActionsRemoveFirst }
{}

/// What is installed stays sound with the end of a request, and none is open then.
pub fn ends_keep_sound()
    ensures { EndsKeepSound }
{}

/// Where what is installed is sound, a request that asks soundly leaves the state sound, also where an earlier one is ended
/// first.
pub fn begins_keep_sound()
    ensures next { NextBeginsKeepSound }
    ensures whole { BeginsKeepSound }
{}

/// The empty state is well formed.
pub fn the_empty_state_is_formed()
    ensures { EmptyIsFormed }
{}

/// A state stays well formed with each action that can follow on it and be spelled.
pub fn actions_keep_form()
    ensures { ActionsKeepForm }
{
    additions_are_met();
}

/// The same with the end of its request.
pub fn ends_keep_form()
    ensures { EndsKeepForm }
{}

/// The same with a request that begins, also where an earlier one is ended first.
pub fn begins_keep_form()
    ensures next { NextBeginsKeepForm }
    ensures whole { BeginsKeepForm }
{}

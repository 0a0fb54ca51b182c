// What holds of every outcome. Nothing here runs: each function stands for its law.
ghost use Rattle.change_outcome.specs.ForeignLaws.{ForeignFilesStay};
ghost use Rattle.change_outcome.specs.OutsideLaws.{ActionsStayOutside, PutBacksSeeOutside, RemovalsSeeOutside, VerdictsSeeOutside};
ghost use Rattle.change_outcome.specs.PossibleLaws.{WhatIsDecidedMayCome, WhatIsPutBackMayCome, WhatMayComeBackCanFollow, WhatMayComeBackStandsWell, WhatMayComeCanFollow, WhatMayComeStandsWell};
ghost use Rattle.change_outcome.specs.Running.{ActionsCanFollow};
ghost use Rattle.change_outcome.specs.ScheduleLaws.{SchedulesGiveTheOutcome};
ghost use Rattle.change_outcome.specs.SpellingLaws.{InstallsAreSpelled, PutBacksAreSpelled};
ghost use Rattle.change_outcome.specs.SuccessLaws.{SuccessIsWhole, SuccessIsWholeInAll};

use change_floor::schedule_does_not_decide;
use switch_state::{actions_keep_form, requests_remove_first};

/// Whatever the order in which jobs start and end, what is decided is the outcome.
pub fn schedules_give_the_outcome()
    ensures { SchedulesGiveTheOutcome }
{
    schedule_does_not_decide();
}

/// Files that nobody owns stay as they are.
pub fn foreign_files_stay()
    ensures { ForeignFilesStay }
{}

/// What is decided does not depend on files in the switch's own folder, and an action does not carry them out of it.
pub fn the_journal_is_not_seen()
    ensures verdicts { VerdictsSeeOutside }
    ensures put_backs { PutBacksSeeOutside }
    ensures removals { RemovalsSeeOutside }
    ensures actions { ActionsStayOutside }
{}

/// Each removal and install of a change that may be run can follow on the state where its turn comes.
pub fn actions_can_follow()
    ensures { ActionsCanFollow }
{}

/// The record of an install whose files can be placed is not too long, nor is that of a put back.
pub fn records_are_spelled()
    ensures installs { InstallsAreSpelled }
    ensures put_backs { PutBacksAreSpelled }
{}

/// Where no install fails, none is given up, and all that was to come is installed. Where no member is left out, nothing is put back
/// then.
pub fn success_is_whole()
    ensures actions { SuccessIsWhole }
    ensures whole { SuccessIsWholeInAll }
{}

/// Whatever comes of a change over devices that tell nothing, its next removal or install can be committed, and the switch stands
/// well there.
pub fn what_may_come_can_follow()
    ensures follows { WhatMayComeCanFollow }
    ensures stands { WhatMayComeStandsWell }
{
    actions_keep_form();
}

/// A package that can come back can be committed when its turn has come, whatever came before, and the switch stands well there.
pub fn what_may_come_back_can_follow()
    ensures follows { WhatMayComeBackCanFollow }
    ensures stands { WhatMayComeBackStandsWell }
{
    actions_keep_form();
    requests_remove_first();
}

/// What is decided is among what may come.
pub fn what_is_decided_may_come()
    ensures actions { WhatIsDecidedMayCome }
    ensures put_backs { WhatIsPutBackMayCome }
{
    actions_keep_form();
    requests_remove_first();
}

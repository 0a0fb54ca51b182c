// Laws of targets and of a chase, each proved as a clause of a function that does nothing.
ghost use Rattle.lock_check.specs.ChaseLaws.{ChasesEnd};
ghost use Rattle.lock_check.specs.TargetLaws.{InstalledStays, LeastIsOne, LeastIsThere, NoneIsLeftOut, NothingAgainstIsMet, NothingAgainstIsPeace, UnionIsMet};

use crate::held::Held;
use opam_filter::holding_is_monotone;
use opam_names::{Name, order_is_stable, rising_is_kept, texts_rise};

/// Two parts in which all items of each package are met are one.
pub fn union_is_met()
    ensures { UnionIsMet }
{
    holding_is_monotone();
}

/// What a removal leaves out would not be met beside what it keeps.
pub fn none_is_left_out()
    ensures { NoneIsLeftOut }
{
    holding_is_monotone();
}

/// A target against which nothing stands is closed under what its packages depend on.
pub fn nothing_against_is_met()
    ensures { NothingAgainstIsMet }
{}

/// Of such a target no package forbids another.
pub fn nothing_against_is_peace()
    ensures { NothingAgainstIsPeace }
{}

/// There is one least set of needed names at most.
pub fn least_is_one()
    ensures { LeastIsOne }
{
    rising_is_kept::<Name>();
}

/// And there is one.
pub fn least_is_there()
    ensures { LeastIsThere }
{
    rising_is_kept::<Name>();
    texts_rise();
}

/// Where all that is needed is installed as it is bound, an install leaves the set as it is.
pub fn installed_stays()
    ensures { InstalledStays }
{
    order_is_stable::<Held>();
}

/// A chase ends: there are at most as many answers as bound packages.
pub fn chases_end()
    ensures { ChasesEnd }
{}

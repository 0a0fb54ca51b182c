// Laws of bytes that begin a file, and of the places of faults.
ghost use Rattle.syntax_faults.specs.Rows.{RowsAreTold};
ghost use Rattle.syntax_faults.specs.Laws.{BeginningsAreTold, DeepPlacesAreTold, EndedInsideIsTold, FaultsAreThere, SpellingsAreFaultless, StrayIsTold, StrayTokensAreTold, TailsAreTold};

/// Bytes begin a file exactly where one of a few endings makes of them tokens that may follow one another.
pub fn beginnings_are_told()
    ensures { BeginningsAreTold }
{}

/// After settled tokens they do exactly where one of these endings makes of the rest tokens that may follow.
pub fn tails_are_told()
    ensures { TailsAreTold }
{}

/// After settled tokens that do not follow one another, bytes begin no file.
pub fn stray_tokens_are_told()
    ensures { StrayTokensAreTold }
{}

/// The byte with which the rest after settled tokens stops to go on is the stray one, if no place is too deep.
pub fn stray_is_told()
    ensures { StrayIsTold }
{}

/// Where that rest goes on, bytes that are no file have ended early, if no place is too deep.
pub fn ended_inside_is_told()
    ensures { EndedInsideIsTold }
{}

/// A place is too deep exactly where the tokens before it and an opening one at it follow one another and nest it in 64
/// others.
pub fn deep_places_are_told()
    ensures { DeepPlacesAreTold }
{}

/// All bytes either spell the items of a file, or have a fault that is no want of memory.
pub fn faults_are_there()
    ensures { FaultsAreThere }
{}

/// Bytes that spell the items of a file have no fault but want of memory.
pub fn spellings_are_faultless()
    ensures { SpellingsAreFaultless }
{}

/// Short texts that stop to begin a file inside a token, or end inside one, each with its place.
pub fn rows_are_told()
    ensures { RowsAreTold }
{}

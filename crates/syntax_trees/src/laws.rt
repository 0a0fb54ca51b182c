// Laws of the grammar.
ghost use Rattle.syntax_trees.specs.Laws.{DeepIsTold, EarlyEndIsTold, FileTokensFollow, FilesAreFaultless, FilesAreNowhereDeep, FilesHaveNoFault, FollowingTokensBegin, OneDerivation, OneFaultForBytes, OneTreeForBytes, SpansAreWithin};

/// Bytes spell at most one tree: two files of one text have the same items, at the same places.
pub fn one_tree_for_bytes()
    ensures { OneTreeForBytes }
{}

/// The grammar derives at most one list of items from bytes, also where something is too deep or doubled.
pub fn one_derivation()
    ensures { OneDerivation }
{}

/// But for want of memory, bytes have at most one fault.
pub fn one_fault_for_bytes()
    ensures { OneFaultForBytes }
{}

/// The text of a file is nowhere stray, has not ended early and has no doubled name.
pub fn files_have_no_fault()
    ensures { FilesHaveNoFault }
{}

/// The text of a file is nowhere too deep.
pub fn files_are_nowhere_deep()
    ensures { FilesAreNowhereDeep }
{}

/// But for want of memory, the text of a file has no fault: a file and a fault exclude each other.
pub fn files_are_faultless()
    ensures { FilesAreFaultless }
{}

/// Every node and every item of a file has a span of some bytes of its text.
pub fn spans_are_within()
    ensures { SpansAreWithin }
{}

/// The tokens of a file follow one another, up to where it may end.
pub fn file_tokens_follow()
    ensures { FileTokensFollow }
{}

/// Bytes that spell tokens which follow one another begin a file.
pub fn following_tokens_begin()
    ensures { FollowingTokensBegin }
{}

/// Bytes that spell such tokens have ended early where a file may not end after them, if none is too deep.
pub fn early_end_is_told()
    ensures { EarlyEndIsTold }
{}

/// The first bracket or prefix operator that the tokens before it nest in 64 others is the place that is too deep.
pub fn deep_is_told()
    ensures { DeepIsTold }
{}

// What holds of every change.
ghost use Rattle.opam_top.specs.Laws.{EachIsDecided};

/// Whatever a workshop tells, each package of a change is decided and its job heard, once and in their order, and each
/// installed one has a record.
pub fn each_is_decided()
    ensures { EachIsDecided }
{}

// Sets of packages in the order of their names.
ghost use Rattle.std.specs.Prelude.{◌↔◌, IsTrue};
ghost use Rattle.opam_filter.specs.Sets.{Rises};

use opam_names::{Pkg, rises_by_bytes};

/// Whether the packages stand in the order of the bytes of their names, each name once.
pub fn rises(set: &[Pkg]) -> bool
    ensures { IsTrue result ↔ Rises set.now }
{
    rises_by_bytes(set)
}

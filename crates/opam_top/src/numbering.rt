// Where the records of the journal and their gates stand.
ghost use Rattle.std.specs.Prelude.{◌≡◌, IfOk};
ghost use Rattle.opam_top.specs.Journals.{gate_path, record_path};

use opam_names::{OutOfMemory, RelPath};
use std::alloc::Global;

/// Where the record with this number stands.
pub fn record_path_of(alloc: Global, number: u64) -> Result<RelPath, OutOfMemory>
    ensures { IfOk result (λ path. path ≡ record_path number) }
{
    let text = format!(in alloc; ".opam-switch/journal/rec/{number}")?;
    RelPath::fixed(alloc, text.as_str())
}

/// Where the gate of the record with this number stands.
pub fn gate_path_of(alloc: Global, number: u64) -> Result<RelPath, OutOfMemory>
    ensures { IfOk result (λ path. path ≡ gate_path number) }
{
    let text = format!(in alloc; ".opam-switch/journal/gate/{number}")?;
    RelPath::fixed(alloc, text.as_str())
}

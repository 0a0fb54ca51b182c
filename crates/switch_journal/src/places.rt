// Where the records and slots of the journal and their gates stand.
ghost use Rattle.std.specs.Prelude.{◌≡◌, IfOk};
ghost use Rattle.switch_journal.specs.Places.{gate_path, record_path, slot_gate, slot_path};

use opam_names::{OutOfMemory, RelPath};
use std::alloc::Global;

/// Where the record with this number stands.
pub fn record_path_of(alloc: Global, number: u64) -> Result<RelPath, OutOfMemory>
    ensures { IfOk result (λ path. path ≡ record_path number) }
{
    let text = format!(in alloc; ".opam-switch/journal/rec/{number}")?;
    RelPath::fixed(alloc, text.as_str())
}

/// Where the gate of the record with this number stands.
pub fn gate_path_of(alloc: Global, number: u64) -> Result<RelPath, OutOfMemory>
    ensures { IfOk result (λ path. path ≡ gate_path number) }
{
    let text = format!(in alloc; ".opam-switch/journal/gate/{number}")?;
    RelPath::fixed(alloc, text.as_str())
}

/// Where a slot stands: `false` names slot 0, `true` slot 1.
pub fn slot_path_of(alloc: Global, slot: bool) -> Result<RelPath, OutOfMemory>
    ensures { IfOk result (λ path. path ≡ slot_path slot) }
{
    if slot {
        RelPath::fixed(alloc, ".opam-switch/journal/snap/1")
    } else {
        RelPath::fixed(alloc, ".opam-switch/journal/snap/0")
    }
}

/// Where its gate stands.
pub fn slot_gate_of(alloc: Global, slot: bool) -> Result<RelPath, OutOfMemory>
    ensures { IfOk result (λ path. path ≡ slot_gate slot) }
{
    if slot {
        RelPath::fixed(alloc, ".opam-switch/journal/snapgate/1")
    } else {
        RelPath::fixed(alloc, ".opam-switch/journal/snapgate/0")
    }
}

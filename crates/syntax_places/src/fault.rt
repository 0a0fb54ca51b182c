// Why a text is no file, and where that shows. The places are this project's own.
ghost use Rattle.std.specs.Prelude.{◌≤◌, length, IfOk};
ghost use Rattle.syntax_places.specs.Beginnings.{IsLongest};
ghost use Rattle.syntax_places.specs.Faults.{IsToldFault};
ghost use Rattle.syntax_trees.specs.Faults.{IsDerived, IsFaultOf, IsNowhereDeep};

use crate::beginnings::beginning_len;
use crate::depth::first_deep;
use opam_names::OutOfMemory;
use std::alloc::Global;
use syntax_trees::{FILE_LIMIT, SyntaxFault};

/// The fault of bytes that are no file: what is too deep, or else the byte with which they stop to begin one, or their end. The
/// place is tried first; it decides how long that takes, and nothing else.
pub fn fault_of(alloc: Global, bytes: &[u8], near: usize) -> Result<SyntaxFault, OutOfMemory>
    requires limit { length bytes.now ≤ FILE_LIMIT }
    requires none { IsNowhereDeep bytes.now → ¬ (IsDerived bytes.now) }
    ensures fault { IfOk result (IsFaultOf bytes.now) }
    ensures told { IfOk result IsToldFault }
{
    let len = beginning_len(alloc, bytes, near)?;
    match first_deep(alloc, bytes, len)? {
        Some(at) => Ok(SyntaxFault::Deep { at: at as u32 }),
        None => Ok(stop_fault(bytes, len)),
    }
}

// Where nothing is too deep, and so many bytes begin a file, at most.
fn stop_fault(bytes: &[u8], len: usize) -> SyntaxFault
    requires limit { length bytes.now ≤ FILE_LIMIT }
    requires longest { IsLongest bytes.now len }
    requires nowhere { IsNowhereDeep bytes.now }
    requires none { ¬ (IsDerived bytes.now) }
    ensures fault { IsFaultOf bytes.now result }
    ensures told { IsToldFault result }
{
    if len < bytes.len() {
        SyntaxFault::Stray { at: len as u32 }
    } else {
        SyntaxFault::Ended { at: len as u32 }
    }
}

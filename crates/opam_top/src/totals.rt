// How many packages a change installed, removed, failed and aborted.
ghost use Rattle.std.specs.Prelude.{◌≡◌, IfOk, count_by};
ghost use Rattle.opam_top.specs.Reports.{is_aborted, is_failed, is_installed, is_removed, summary};

use crate::decision::Decision;
use opam_names::OutOfMemory;
use std::alloc::Global;

/// The last line of the report: how many decisions there are of each kind.
pub fn summary(alloc: Global, decisions: &[Decision]) -> Result<Vec<u8>, OutOfMemory>
    ensures { IfOk result (λ text. text.items ≡ summary decisions.now) }
{
    let installed = count_installed(decisions);
    let removed = count_removed(decisions);
    let failed = count_failed(decisions);
    let aborted = count_aborted(decisions);
    let text = format!(in alloc;
        "done: {installed} installed, {removed} removed, {failed} failed, {aborted} aborted\n"
    )?;
    Ok(text.into_bytes())
}

fn count_installed(decisions: &[Decision]) -> usize
    ensures { result ≡ count_by is_installed decisions.now }
{
    decisions.iter().filter(|d| d.is_installed()).count()
}

fn count_removed(decisions: &[Decision]) -> usize
    ensures { result ≡ count_by is_removed decisions.now }
{
    decisions.iter().filter(|d| d.is_removed()).count()
}

fn count_failed(decisions: &[Decision]) -> usize
    ensures { result ≡ count_by is_failed decisions.now }
{
    decisions.iter().filter(|d| d.is_failed()).count()
}

fn count_aborted(decisions: &[Decision]) -> usize
    ensures { result ≡ count_by is_aborted decisions.now }
{
    decisions.iter().filter(|d| d.is_aborted()).count()
}

// Records read from their bytes.
ghost use Rattle.std.specs.Prelude.{◌≡◌, ◌↔◌, IfOk, IfNone, IfSome, IsTrue, codes};
ghost use Rattle.journal_text.specs.Reading.{Gives, body_at, change_at, coming_at, kept_at, old_body_at, old_record_at, optional_at, record_at, removal_at, request_at, whole_at};
ghost use Rattle.journal_text.specs.Records.{IsInOrder, IsOldSpelledBy, IsSpelledBy, SpellNoOldRecord, SpellNoRecord};
ghost use Rattle.journal_text.specs.declared.record.Rec.{Rec};

use crate::field::{Field, list_of};
use crate::fields::kept_of;
use crate::order::is_in_order;
use crate::reader::{behind, ended};
use crate::record::{Entry, KeptFiles, RECORD_LIMIT, Rec};
use crate::stop::Stop;
use opam_names::{Items, OutOfMemory, Pkg};
use std::alloc::Global;

/// The record that the bytes spell; None exactly where they spell none.
pub fn decode(alloc: Global, bytes: &[u8]) -> Result<Option<Rec>, OutOfMemory>
    ensures some { IfOk result (λ found. IfSome found (λ entry. IsSpelledBy entry bytes.now)) }
    ensures none { IfOk result (λ found. IfNone found (SpellNoRecord bytes.now)) }
{
    if bytes.len() > RECORD_LIMIT {
        return Ok(None);
    }
    match record_of(alloc, bytes) {
        Ok(entry) => in_order(alloc, entry),
        Err(Stop::Bad) => Ok(None),
        Err(Stop::Memory) => Err(OutOfMemory),
    }
}

/// The record that the bytes spell in the old format; None exactly where they spell none.
pub fn decode_old(alloc: Global, bytes: &[u8]) -> Result<Option<Rec>, OutOfMemory>
    ensures some { IfOk result (λ found. IfSome found (λ entry. IsOldSpelledBy entry bytes.now)) }
    ensures none { IfOk result (λ found. IfNone found (SpellNoOldRecord bytes.now)) }
{
    if bytes.len() > RECORD_LIMIT {
        return Ok(None);
    }
    match old_record_of(alloc, bytes) {
        Ok(entry) => in_order(alloc, entry),
        Err(Stop::Bad) => Ok(None),
        Err(Stop::Memory) => Err(OutOfMemory),
    }
}

// The record, where its parts stand in order.
fn in_order(alloc: Global, entry: Rec) -> Result<Option<Rec>, OutOfMemory>
    ensures some { IfOk result (λ found. IfSome found (λ e. (e ≡ entry) × IsInOrder entry)) }
    ensures none { IfOk result (λ found. IfNone found (¬ (IsInOrder entry))) }
{
    let ordered = is_in_order(alloc, &entry)?;
    if ordered { Ok(Some(entry)) } else { Ok(None) }
}

#[tactic(auto, unfolding(crate::specs::Reading::whole_at))]
fn record_of(alloc: Global, text: &[u8]) -> Result<Rec, Stop>
    ensures { Gives (λ x. x) result (record_at text.now) }
{
    let rest = behind(text, b"OPAMREC2")?;
    let (entry, rest) = body_of(alloc, rest)?;
    ended(entry, rest)
}

#[tactic(auto, unfolding(crate::specs::Reading::whole_at))]
fn old_record_of(alloc: Global, text: &[u8]) -> Result<Rec, Stop>
    ensures { Gives (λ x. x) result (old_record_at text.now) }
{
    let rest = behind(text, b"OPAMREC1")?;
    let (entry, rest) = old_body_of(alloc, rest)?;
    ended(entry, rest)
}

#[tactic(auto, unfolding(crate::specs::Reading::body_at))]
fn body_of(alloc: Global, text: &[u8]) -> Result<(Rec, &[u8]), Stop>
    ensures { Gives (λ x. (x.0, x.1.now)) result (body_at text.now) }
{
    match text {
        [1, rest @ ..] => install_of(alloc, rest),
        [2, rest @ ..] => removal_of(alloc, rest),
        [3, rest @ ..] => request_of(alloc, rest),
        [4, rest @ ..] => Ok((Rec::End, rest)),
        [5, rest @ ..] => put_back_of(alloc, rest),
        _ => Err(Stop::Bad),
    }
}

#[tactic(auto, unfolding(crate::specs::Reading::old_body_at))]
fn old_body_of(alloc: Global, text: &[u8]) -> Result<(Rec, &[u8]), Stop>
    ensures { Gives (λ x. (x.0, x.1.now)) result (old_body_at text.now) }
{
    match text {
        [1, rest @ ..] => install_of(alloc, rest),
        [2, rest @ ..] => {
            let (pkg, rest) = Pkg::read_front(alloc, rest)?;
            Ok((Rec::Remove { pkg, kept: None }, rest))
        }
        _ => Err(Stop::Bad),
    }
}

#[tactic(auto, unfolding(crate::specs::Reading::both_at))]
fn install_of(alloc: Global, text: &[u8]) -> Result<(Rec, &[u8]), Stop>
    ensures { Gives (λ x. (x.0, x.1.now)) result (coming_at Rec.Install text.now) }
{
    let (pkg, rest) = Pkg::read_front(alloc, text)?;
    let (KeptFiles { opam, files }, rest) = kept_of(alloc, rest)?;
    Ok((Rec::Install { pkg, opam, files }, rest))
}

#[tactic(auto, unfolding(crate::specs::Reading::both_at))]
fn put_back_of(alloc: Global, text: &[u8]) -> Result<(Rec, &[u8]), Stop>
    ensures { Gives (λ x. (x.0, x.1.now)) result (coming_at Rec.PutBack text.now) }
{
    let (pkg, rest) = Pkg::read_front(alloc, text)?;
    let (KeptFiles { opam, files }, rest) = kept_of(alloc, rest)?;
    Ok((Rec::PutBack { pkg, opam, files }, rest))
}

#[tactic(auto, unfolding(crate::specs::Reading::both_at))]
fn removal_of(alloc: Global, text: &[u8]) -> Result<(Rec, &[u8]), Stop>
    ensures { Gives (λ x. (x.0, x.1.now)) result (removal_at text.now) }
{
    let (pkg, rest) = Pkg::read_front(alloc, text)?;
    let (kept, rest) = kept_or_none_of(alloc, rest)?;
    Ok((Rec::Remove { pkg, kept }, rest))
}

#[tactic(auto, unfolding(crate::specs::Reading::optional_at))]
fn kept_or_none_of(alloc: Global, text: &[u8]) -> Result<(Option<KeptFiles>, &[u8]), Stop>
    ensures { Gives (λ x. (x.0, x.1.now)) result (optional_at kept_at text.now) }
{
    match text {
        [0, rest @ ..] => Ok((None, rest)),
        [1, rest @ ..] => {
            let (kept, rest) = kept_of(alloc, rest)?;
            Ok((Some(kept), rest))
        }
        _ => Err(Stop::Bad),
    }
}

#[tactic(auto, unfolding(crate::specs::Reading::both_at))]
fn request_of(alloc: Global, text: &[u8]) -> Result<(Rec, &[u8]), Stop>
    ensures { Gives (λ x. (x.0, x.1.now)) result (request_at text.now) }
{
    let (roots, rest) = list_of(alloc, text)?;
    let ((target, removals), rest) = change_of(alloc, rest)?;
    Ok((
        Rec::Begin {
            roots,
            target,
            removals,
        },
        rest,
    ))
}

// The members of a target and the removals.
#[tactic(auto, unfolding(crate::specs::Reading::both_at))]
fn change_of(alloc: Global, text: &[u8]) -> Result<((Items<Entry>, Items<Pkg>), &[u8]), Stop>
    ensures { Gives (λ x. (x.0, x.1.now)) result (change_at text.now) }
{
    let (target, rest) = list_of(alloc, text)?;
    let (removals, rest) = list_of(alloc, rest)?;
    Ok(((target, removals), rest))
}

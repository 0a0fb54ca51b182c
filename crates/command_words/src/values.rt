// What the values of options and the plain words may be.
ghost use Rattle.std.specs.Prelude.{◌≡◌, [], ◌∷◌, IfOk, IfSome, IfNone, IsTrue, true, false};
ghost use Rattle.std.specs.List.{list_all};
ghost use Rattle.opam_names.specs.Names.{is_name, is_version};
ghost use Rattle.opam_names.specs.Orders.{number};
ghost use Rattle.opam_names.specs.Paths.{is_not_zero};
ghost use Rattle.command_words.specs.Readings.{is_jobs, is_path, is_shown, is_value};

use crate::tables::ValueKind;
use opam_names::{Name, OutOfMemory, ReadFault, Version};
use std::alloc::Global;

// The name of a file or a folder is not empty and has no zero byte.
pub fn is_path(text: &str) -> bool
    ensures { result ≡ is_path text.now }
{
    !text.is_empty() && has_no_zero(text.as_bytes())
}

fn has_no_zero(bytes: &[u8]) -> bool
    ensures { result ≡ list_all is_not_zero bytes.now }
{
    bytes.iter().all(|byte| *byte != 0)
}

// The number of jobs that a text writes, where it is 1 to 64.
fn jobs_of(text: &[u8]) -> Option<u32>
    ensures some { IfSome result (λ jobs. (is_jobs text.now ≡ true) × (jobs ≡ number text.now)) }
    ensures none { IfNone result (is_jobs text.now ≡ false) }
{
    match text {
        [] | [_, _, _, ..] => None,
        [units] => jobs_of_units(*units),
        [tens, units] => jobs_of_tens(*tens, *units),
    }
}

// The number of jobs that a text writes.
pub fn number_of(text: &[u8]) -> u32
    requires { IsTrue (is_jobs text.now) }
    ensures { result ≡ number text.now }
{
    match jobs_of(text) {
        Some(jobs) => jobs,
        None => unreachable!(),
    }
}

fn jobs_of_units(units: u8) -> Option<u32>
    ensures some { IfSome result (λ jobs. (is_jobs (units ∷ []) ≡ true) × (jobs ≡ number (units ∷ []))) }
    ensures none { IfNone result (is_jobs (units ∷ []) ≡ false) }
{
    match units {
        b'1'..=b'9' => Some(u32::from(units - b'0')),
        _ => None,
    }
}

fn jobs_of_tens(tens: u8, units: u8) -> Option<u32>
    ensures some { IfSome result (λ jobs. (is_jobs (tens ∷ units ∷ []) ≡ true) × (jobs ≡ number (tens ∷ units ∷ []))) }
    ensures none { IfNone result (is_jobs (tens ∷ units ∷ []) ≡ false) }
{
    match (tens, units) {
        (b'1'..=b'5', b'0'..=b'9') | (b'6', b'0'..=b'4') => {
            Some(u32::from(tens - b'0') * 10 + u32::from(units - b'0'))
        }
        _ => None,
    }
}

// Whether an option of this kind may have this value.
pub fn is_value(kind: ValueKind, text: &str) -> bool
    ensures { result ≡ is_value kind text.now }
{
    match kind {
        ValueKind::Path => is_path(text),
        ValueKind::Jobs => jobs_of(text.as_bytes()).is_some(),
    }
}

pub fn is_name(alloc: Global, word: &str) -> Result<bool, OutOfMemory>
    ensures { IfOk result (λ fits. fits ≡ is_name word.now) }
{
    if word.len() > 120 {
        return Ok(false);
    }
    match Name::read(alloc, word.as_bytes()) {
        Ok(_) => Ok(true),
        Err(ReadFault::Bad { .. }) => Ok(false),
        Err(ReadFault::Memory) => Err(OutOfMemory),
    }
}

fn is_version(alloc: Global, word: &str) -> Result<bool, OutOfMemory>
    ensures { IfOk result (λ fits. fits ≡ is_version word.now) }
{
    if word.len() > 120 {
        return Ok(false);
    }
    match Version::read(alloc, word.as_bytes()) {
        Ok(_) => Ok(true),
        Err(ReadFault::Bad { .. }) => Ok(false),
        Err(ReadFault::Memory) => Err(OutOfMemory),
    }
}

// A word with a dot is a package, and one without is a name.
pub fn is_shown(alloc: Global, word: &str) -> Result<bool, OutOfMemory>
    ensures { IfOk result (λ fits. fits ≡ is_shown word.now) }
{
    match word.split_once('.') {
        Some((name, version)) => Ok(is_name(alloc, name)? && is_version(alloc, version)?),
        None => is_name(alloc, word),
    }
}

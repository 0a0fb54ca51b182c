// What a journal says, record by record. Those that could be applied so far are applied anew before each further one, so that
// one which is refused leaves them.
ghost use Rattle.journal_text.specs.Records.{IsOldSpelledBy, IsSpelledBy};

use crate::openings::{push_names, push_pkg, push_request, push_standing};
use journal_text::{Rec, decode, decode_old};
use owner_map::Owners;
use row_script::fault::Fault;
use row_script::lexer::Word;
use row_script::script::{Call, same};
use row_script::show::plain;
use std::alloc::Global;
use switch_journal::Kept;

/// A record that could be applied, by its number, its bytes and the call.
#[derive(Drop)]
pub struct Step {
    number: u64,
    bytes: Vec<u8>,
    old: bool,
}

pub fn answer(alloc: Global, call: &Call, steps: &mut Vec<Step>) -> Result<String, Fault> {
    let words = call.words.as_slice();
    match call.name.as_str() {
        "Kept::empty" => begin(alloc, steps),
        "Kept::apply" => go_on(alloc, steps, words, false),
        "Kept::apply_old" => go_on(alloc, steps, words, true),
        _ => Err(Fault::Unknown),
    }
}

fn begin(alloc: Global, steps: &mut Vec<Step>) -> Result<String, Fault> {
    steps.clear();
    show_kept(alloc, &Kept::empty(alloc))
}

fn go_on(alloc: Global, steps: &mut Vec<Step>, words: &[Word], old: bool) -> Result<String, Fault> {
    let step = step_of(alloc, words, old)?;
    let before = after_all(alloc, steps.as_slice())?;
    match after(alloc, before, &step)? {
        None => plain(alloc, "refused"),
        Some(kept) => {
            steps.push(step)?;
            show_kept(alloc, &kept)
        }
    }
}

fn step_of(alloc: Global, words: &[Word], old: bool) -> Result<Step, Fault> {
    let [number, text] = words else {
        return Err(Fault::Unknown);
    };
    Ok(Step {
        number: number.number()?,
        bytes: same(alloc, text)?,
        old,
    })
}

fn after_all(alloc: Global, steps: &[Step]) -> Result<Kept, Fault> {
    let mut kept = Kept::empty(alloc);
    for step in steps {
        kept = after_known(alloc, kept, step)?;
    }
    Ok(kept)
}

fn after_known(alloc: Global, kept: Kept, step: &Step) -> Result<Kept, Fault> {
    match after(alloc, kept, step)? {
        Some(next) => Ok(next),
        None => Err(Fault::Line("a record is refused that was applied before")),
    }
}

fn after(alloc: Global, kept: Kept, step: &Step) -> Result<Option<Kept>, Fault> {
    let bytes = step.bytes.as_slice();
    if step.old {
        after_old(alloc, kept, step.number, bytes)
    } else {
        after_new(alloc, kept, step.number, bytes)
    }
}

fn after_new(alloc: Global, kept: Kept, number: u64, bytes: &[u8]) -> Result<Option<Kept>, Fault> {
    match decode(alloc, bytes)? {
        None => Err(Fault::Line("a word is no record")),
        Some(entry) => applied(alloc, kept, number, &entry, bytes),
    }
}

fn applied(
    alloc: Global,
    kept: Kept,
    number: u64,
    entry: &Rec,
    bytes: &[u8],
) -> Result<Option<Kept>, Fault>
    requires { IsSpelledBy entry.now bytes.now }
{
    let _spelled = bytes;
    Ok(kept.apply(alloc, number, entry)?)
}

// A record of the other format is applied as an old one too: no old journal has such a record.
fn after_old(alloc: Global, kept: Kept, number: u64, bytes: &[u8]) -> Result<Option<Kept>, Fault> {
    match decode_old(alloc, bytes)? {
        None => after_other(alloc, kept, number, bytes),
        Some(entry) => applied_old(alloc, kept, number, &entry, bytes),
    }
}

fn applied_old(
    alloc: Global,
    kept: Kept,
    number: u64,
    entry: &Rec,
    bytes: &[u8],
) -> Result<Option<Kept>, Fault>
    requires { IsOldSpelledBy entry.now bytes.now }
{
    let _spelled = bytes;
    Ok(kept.apply_old(alloc, number, entry)?)
}

fn after_other(
    alloc: Global,
    kept: Kept,
    number: u64,
    bytes: &[u8],
) -> Result<Option<Kept>, Fault> {
    match decode(alloc, bytes)? {
        None => Err(Fault::Line("a word is no record")),
        Some(entry) => applied_other(alloc, kept, number, &entry, bytes),
    }
}

fn applied_other(
    alloc: Global,
    kept: Kept,
    number: u64,
    entry: &Rec,
    bytes: &[u8],
) -> Result<Option<Kept>, Fault>
    requires { IsSpelledBy entry.now bytes.now }
{
    let _spelled = bytes;
    Ok(kept.apply_old(alloc, number, entry)?)
}

fn show_kept(alloc: Global, kept: &Kept) -> Result<String, Fault> {
    let mut text = String::from_str(alloc, "entries")?;
    push_standing(&mut text, kept.standing())?;
    push_owners(&mut text, kept.owners())?;
    text.push_str("; roots")?;
    push_names(&mut text, kept.roots())?;
    if let Some(request) = kept.request() {
        push_request(&mut text, request)?;
    }
    Ok(text)
}

fn push_owners(text: &mut String, owners: &Owners) -> Result<(), Fault> {
    text.push_str("; owned")?;
    for i in 0..owners.len() {
        let (path, owner) = owners.at(i);
        text.push_str(" ")?;
        text.push_str(path.as_str())?;
        text.push_str(" of ")?;
        push_pkg(text, owner)?;
    }
    Ok(())
}
